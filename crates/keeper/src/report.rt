// An engine report, read by what a request wants of the engine. It is refused where it does not suit, or says that the
// engine failed.
ghost use Rattle.std.specs.Prelude.{◌≡◌, false, IfOk};
ghost use Rattle.protocol.specs.Reason.{number_of, outcome_number};
ghost use Rattle.rules.specs.Report.{fails, is_done, is_prepared, is_result};
ghost use Rattle.keeper.specs.private.Reasons.{consulted};
ghost use Rattle.keeper.specs.private.Does.{result_set};

use protocol::reason::Reason;
use rules::Report;

// What the engine gives for a statement that was run: whether there are columns, and how many rows.
#[derive(Clone, Copy)]
pub(crate) struct ResultSet {
    pub columns: bool,
    pub rows: u32,
}

// A failure of the engine, with a code of 32 bits that is not 0.
fn has_failed(r: Report) -> bool
    ensures { result ≡ fails r }
{
    r.kind == rules::FAILED && r.code != 0 && r.code <= rules::MAX_NUMBER
}

// The reason of a report that does not suit.
fn unsuited(r: Report) -> Reason
    ensures { number_of result ≡ consulted false (fails r) }
{
    if has_failed(r) {
        return Reason::EngineFailed;
    }
    Reason::BadReport
}

// The placeholders of a statement that was prepared.
pub(crate) fn prepared(r: Report) -> Result<u32, Reason>
    ensures reason { outcome_number result ≡ consulted (is_prepared r) (fails r) }
    ensures found { IfOk result (λ n. n ≡ r.placeholders) }
{
    if r.kind == rules::PREPARED && r.placeholders <= rules::MAX_PLACEHOLDERS {
        return Ok(r.placeholders as u32);
    }
    Err(unsuited(r))
}

// The result of a statement that was run. Without columns it has no rows.
pub(crate) fn result_set(r: Report) -> Result<ResultSet, Reason>
    ensures reason { outcome_number result ≡ consulted (is_result r) (fails r) }
    ensures found { IfOk result (λ x. x ≡ result_set r) }
{
    if r.kind != rules::RESULT || r.columns > rules::MAX_COLUMNS || r.rows > rules::MAX_NUMBER {
        return Err(unsuited(r));
    }
    if r.columns == 0 && r.rows != 0 {
        return Err(unsuited(r));
    }
    Ok(ResultSet {
        columns: r.columns != 0,
        rows: r.rows as u32,
    })
}

// The rows of a Fetch are ready.
pub(crate) fn done(r: Report) -> Result<(), Reason>
    ensures { outcome_number result ≡ consulted (is_done r) (fails r) }
{
    if r.kind == rules::DONE {
        return Ok(());
    }
    Err(unsuited(r))
}
