// Why something is refused, and the number that each reason has for hosts.
ghost use Rattle.std.specs.Prelude.{◌≡◌};
ghost use Rattle.protocol.specs.Reason.{number_of};

// What is accepted has this number.
pub const ACCEPTED: u64 = 0;

#[derive(Clone, Copy, Debug, PartialEq, Eq)]
pub enum Reason {
    NotAllThere,
    BadLength,
    NoRoom,
    Closed,
    UnknownType,
    BadPayload,
    NoStmt,
    NotScalar,
    FewArguments,
    NoCursor,
    AllSent,
    OtherCursor,
    StmtsFull,
    CursorsFull,
    BadReport,
    EngineFailed,
    BodyTwice,
    BadImage,
}

impl From<Reason> for u64 {
    ghost from_gives = { λ reason n. n ≡ number_of reason };

    fn from(reason: Reason) -> u64 {
        match reason {
            Reason::NotAllThere => NOT_ALL_THERE,
            Reason::BadLength => BAD_LENGTH,
            Reason::NoRoom => NO_ROOM,
            Reason::Closed => CLOSED,
            Reason::UnknownType => UNKNOWN_TYPE,
            Reason::BadPayload => BAD_PAYLOAD,
            Reason::NoStmt => NO_STMT,
            Reason::NotScalar => NOT_SCALAR,
            Reason::FewArguments => FEW_ARGUMENTS,
            Reason::NoCursor => NO_CURSOR,
            Reason::AllSent => ALL_SENT,
            Reason::OtherCursor => OTHER_CURSOR,
            Reason::StmtsFull => STMTS_FULL,
            Reason::CursorsFull => CURSORS_FULL,
            Reason::BadReport => BAD_REPORT,
            Reason::EngineFailed => ENGINE_FAILED,
            Reason::BodyTwice => BODY_TWICE,
            Reason::BadImage => BAD_IMAGE,
        }
    }
}

pub const NOT_ALL_THERE: u64 = 1;

pub const BAD_LENGTH: u64 = 2;

pub const NO_ROOM: u64 = 3;

pub const CLOSED: u64 = 4;

pub const UNKNOWN_TYPE: u64 = 5;

pub const BAD_PAYLOAD: u64 = 6;

pub const NO_STMT: u64 = 7;

pub const NOT_SCALAR: u64 = 8;

pub const FEW_ARGUMENTS: u64 = 9;

pub const NO_CURSOR: u64 = 10;

pub const ALL_SENT: u64 = 11;

pub const OTHER_CURSOR: u64 = 12;

pub const STMTS_FULL: u64 = 13;

pub const CURSORS_FULL: u64 = 14;

pub const BAD_REPORT: u64 = 15;

pub const ENGINE_FAILED: u64 = 16;

pub const BODY_TWICE: u64 = 17;

pub const BAD_IMAGE: u64 = 18;
