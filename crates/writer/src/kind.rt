// The kinds of a client's message.
ghost use Rattle.writer.specs.private.Kind.{IsKind};

use protocol::client;
use protocol::reason::Reason;

#[derive(Clone, Copy)]
pub(crate) enum Kind {
    Reset,
    SessionClose,
    Prepare,
    Execute,
    Deallocate,
    Open,
    Close,
    Fetch,
}

// The kind with this message type.
pub(crate) fn kind_of(number: u64) -> Result<Kind, Reason>
    ensures { IsKind number result }
{
    match number {
        client::RESET => Ok(Kind::Reset),
        client::SESSION_CLOSE => Ok(Kind::SessionClose),
        client::PREPARE => Ok(Kind::Prepare),
        client::EXECUTE => Ok(Kind::Execute),
        client::DEALLOCATE => Ok(Kind::Deallocate),
        client::OPEN => Ok(Kind::Open),
        client::CLOSE => Ok(Kind::Close),
        client::FETCH => Ok(Kind::Fetch),
        _ => Err(Reason::BadPayload),
    }
}
