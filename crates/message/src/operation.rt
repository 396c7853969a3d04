// The types of a Prepare's statement, as numbers: the rows of its table say which there are.
ghost use Rattle.std.specs.Prelude.{◌≡◌, ◌<◌};
ghost use Rattle.layout.specs.Row.{slot_count};
ghost use Rattle.message.specs.Operation.{field_of};

pub const FIND: u64 = 0;

pub const INSERT: u64 = 1;

pub const UPDATE: u64 = 2;

pub const DELETE: u64 = 4;

pub const STMT_EXECUTE: u64 = 5;

// The fields of the statement that hold a body, one for each type.
const FIND_FIELD: usize = 2;

const INSERT_FIELD: usize = 3;

const UPDATE_FIELD: usize = 4;

const DELETE_FIELD: usize = 5;

pub(crate) const STMT_EXECUTE_FIELD: usize = 6;

// The field that a type chooses as the body.
pub fn field_of(t: u64) -> usize
    ensures { (result ≡ field_of t) × (result < slot_count) }
{
    match t {
        FIND => FIND_FIELD,
        INSERT => INSERT_FIELD,
        UPDATE => UPDATE_FIELD,
        DELETE => DELETE_FIELD,
        _ => STMT_EXECUTE_FIELD,
    }
}
