// Insert, update, delete and read ("01, Writes, withdrawal, sweep", "01, When the desk says no"). The areas are lent apart, as C lends
// them, and those that a call never writes are lent to be read. The desk is lent as its words: insert and read leave it, and update and
// delete change nothing of it but one mark, and that only where they answer 10 ("02, T-07").
#![tactic(auto)]

ghost use Rattle.std.specs.Prelude.{◌≡◌, cond, ◌<◌, eqb};
ghost use Rattle.ground.specs.Does.{Does};
ghost use Rattle.answer.specs.Code.{code_of};
ghost use Rattle.kind.specs.Areas.{areas};
ghost use Rattle.columns.specs.Limits.{sessions};
ghost use Rattle.desk.specs.Turns.{spoiled};
ghost use Rattle.words.specs.Words.{desk_in, Desks};
ghost use Rattle.sight.specs.Sight.{said_view};
ghost use Rattle.admit.specs.Admit.{said};
ghost use Rattle.rows.specs.Rows.{said_inserted, said_seen, view_lent, insert_rule, update_rule, delete_rule, read_rule};

use answer::Refusal;
use chain::Found;
use sight::{StatusPage, View};
use words::Words;

// "a body of 32 bytes"
const BODY: usize = 32;

// What the session at place k of the desk sees by.
fn seen_by<'a>(desk: &'a Words, session: u64, k: usize) -> View<'a>
    requires { k < sessions }
    ensures { said_view result ≡ view_lent (desk_in desk.now) session k }
{
    View {
        number: session,
        statement: words::statement(desk, k),
        list: words::list(desk, k),
    }
}

// Makes a new row in the lowest empty slot, and answers which.
pub fn insert(
    data: &mut [u8],
    undo: &[u8],
    status: &[u8],
    desk: &Words,
    session: u64,
    body: &[u8],
) -> Result<usize, Refusal>
    ensures { Does (insert_rule (areas «data».old undo.now status.now) (desk_in desk.now) session body.now) (said_inserted result) «data».new }
{
    let k = admit::admit_unspoiled(data.len(), undo.len(), status.len(), desk, session)?;
    if body.len() != BODY {
        return Err(Refusal::BadArgument);
    }
    let row = vacant::lowest_empty(data).ok_or(Refusal::NoRoom)?;
    writing::insert_at(data, row, session, words::statement(desk, k), body);
    Ok(row)
}

// A refused write of the session at place k: "After an answer 10, the desk marks that session spoiled, the one change that refusal makes."
fn unwritten(desk: &mut Words, k: usize, refusal: Refusal) -> Refusal
    requires { k < sessions }
    ensures { (result ≡ refusal) × (desk_in desk.new ≡ cond (eqb (code_of refusal) 10) (spoiled k (desk_in desk.old)) (desk_in desk.old)) }
{
    if refusal == Refusal::Conflict {
        words::spoil(desk, k);
    }
    refusal
}

// Replaces the row's version by a new one, and keeps the old one in the lowest free entry.
pub fn update(
    data: &mut [u8],
    undo: &mut [u8],
    status: &[u8],
    desk: &mut Words,
    session: u64,
    row: usize,
    body: &[u8],
) -> Result<(), Refusal>
    ensures does { Does (update_rule (areas «data».old undo.old status.now) (desk_in desk.old) session row body.now) (said result desk.new) (areas «data».new undo.new status.now) }
    ensures desks { Desks desk.old desk.new }
{
    let k = admit::admit_unspoiled(data.len(), undo.len(), status.len(), desk, session)?;
    if body.len() != BODY {
        return Err(Refusal::BadArgument);
    }
    let statement = words::statement(desk, k);
    let view = seen_by(desk, session, k);
    let page = StatusPage { bytes: status };
    if let Err(refusal) = seeking::may_write(data, undo, page, view, row) {
        return Err(unwritten(desk, k, refusal));
    }
    let e = vacant::lowest_free(undo).ok_or(Refusal::NoRoom)?;
    writing::update_at(data, undo, row, e, session, statement, body);
    Ok(())
}

// Ends the row's version.
pub fn delete<'a>(
    data: &mut [u8],
    undo: &'a [u8],
    status: &'a [u8],
    desk: &mut Words,
    session: u64,
    row: usize,
) -> Result<(), Refusal>
    ensures does { Does (delete_rule (areas «data».old undo.now status.now) (desk_in desk.old) session row) (said result desk.new) «data».new }
    ensures desks { Desks desk.old desk.new }
{
    let k = admit::admit_unspoiled(data.len(), undo.len(), status.len(), desk, session)?;
    let statement = words::statement(desk, k);
    let view = seen_by(desk, session, k);
    let page = StatusPage { bytes: status };
    if let Err(refusal) = seeking::may_write(data, undo, page, view, row) {
        return Err(unwritten(desk, k, refusal));
    }
    writing::delete_at(data, row, session, statement);
    Ok(())
}

// Finds the version that the session reads. `chain::body` hands its body back where it lies.
pub fn read<'a>(
    data: &'a [u8],
    undo: &'a [u8],
    status: &'a [u8],
    desk: &'a Words,
    session: u64,
    row: usize,
) -> Result<Found, Refusal>
    ensures { said_seen result ≡ read_rule (areas «data».now undo.now status.now) (desk_in desk.now) session row }
{
    let k = admit::admit(data.len(), undo.len(), status.len(), desk, session)?;
    let view = seen_by(desk, session, k);
    seeking::seek(data, undo, StatusPage { bytes: status }, view, row)
}
