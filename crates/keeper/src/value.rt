// Look and step for a session by value: handed in, and handed back by a step.
ghost use Rattle.std.specs.Prelude.{◌≡◌};
ghost use Rattle.session.specs.Words.{session_of};
ghost use Rattle.rules.specs.Step.{look_at, step_of};

use rules::{Answer, Look, Report};
use session::Session;

// What a step hands back.
#[derive(Drop)]
pub struct Outcome {
    pub answer: Answer,
    pub session: Session,
}

pub fn look(session: Session, frame: &[u8]) -> Look
    ensures { result ≡ look_at (session_of session.words) frame.now }
{
    crate::look::look(&session.words, frame)
}

pub fn step(mut session: Session, frame: &[u8], report: Report, reply: &mut [u8]) -> Outcome
    ensures answer { result.answer ≡ (step_of (session_of session.words) frame.now report reply.old).answer }
    ensures session { session_of result.session.words
        ≡ (step_of (session_of session.words) frame.now report reply.old).session }
    ensures buffer { reply.new
        ≡ (step_of (session_of session.words) frame.now report reply.old).buffer }
{
    let answer = crate::step::step(&mut session.words, frame, report, reply);
    Outcome { answer, session }
}
