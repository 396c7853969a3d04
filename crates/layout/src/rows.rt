// Each message's rows, tied to the definitions: a wrong row of the table is refused here.
ghost use Rattle.std.specs.Prelude.{◌≡◌};
ghost use Rattle.protocol.specs.Client.{close, deallocate, execute, fetch, open', prepare};
ghost use Rattle.layout.specs.Row.{columns_of};
ghost use Rattle.layout.specs.Table.{any, bytes, open_stmt, prepare_stmt, rows_of, scalar, stmt_execute};

use crate::row::Row;
use crate::table;

pub fn prepare_rows() -> [Row; 2]
    ensures { columns_of result ≡ rows_of prepare }
{
    table::PREPARE_ROWS
}

pub fn prepare_stmt_rows() -> [Row; 6]
    ensures { columns_of result ≡ rows_of prepare_stmt }
{
    table::PREPARE_STMT_ROWS
}

pub fn stmt_execute_rows() -> [Row; 4]
    ensures { columns_of result ≡ rows_of stmt_execute }
{
    table::STMT_EXECUTE_ROWS
}

pub fn execute_rows() -> [Row; 3]
    ensures { columns_of result ≡ rows_of execute }
{
    table::EXECUTE_ROWS
}

pub fn deallocate_rows() -> [Row; 1]
    ensures { columns_of result ≡ rows_of deallocate }
{
    table::DEALLOCATE_ROWS
}

pub fn open_rows() -> [Row; 3]
    ensures { columns_of result ≡ rows_of open' }
{
    table::OPEN_ROWS
}

pub fn open_stmt_rows() -> [Row; 2]
    ensures { columns_of result ≡ rows_of open_stmt }
{
    table::OPEN_STMT_ROWS
}

pub fn fetch_rows() -> [Row; 2]
    ensures { columns_of result ≡ rows_of fetch }
{
    table::FETCH_ROWS
}

pub fn close_rows() -> [Row; 1]
    ensures { columns_of result ≡ rows_of close }
{
    table::CLOSE_ROWS
}

pub fn any_rows() -> [Row; 2]
    ensures { columns_of result ≡ rows_of any }
{
    table::ANY_ROWS
}

pub fn scalar_rows() -> [Row; 8]
    ensures { columns_of result ≡ rows_of scalar }
{
    table::SCALAR_ROWS
}

pub fn bytes_rows() -> [Row; 1]
    ensures { columns_of result ≡ rows_of bytes }
{
    table::BYTES_ROWS
}
