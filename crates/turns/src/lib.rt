// Begin, next statement and commit on the areas ("01, Sessions and sight", "01, When the desk says no"). They look at the lengths of
// all three areas and write the status page alone. The desk comes as its words: a Desk is made of them once the call is admitted, and
// the new one that its method hands back is written in their place; a refused call leaves them.
// The areas are lent apart, as C lends them: a call writes some of them and only reads others.
#![tactic(auto)]

ghost use Rattle.std.specs.Prelude.{◌≡◌};
ghost use Rattle.ground.specs.Does.{Does};
ghost use Rattle.kind.specs.Areas.{areas};
ghost use Rattle.words.specs.Words.{desk_in, Desks};
ghost use Rattle.admit.specs.Admit.{said};
ghost use Rattle.turns.specs.Turns.{said_begun, begin_rule, next_rule, commit_rule};

use answer::Refusal;
use columns::Limits;
use desk::Desk;
use status::Status;
use words::Words;

// Opens a session: answers the next number, and writes it to the status page.
#[tactic(auto, using(crate::proofs::Calls::begin_1, crate::proofs::Calls::begin_2, crate::proofs::Calls::begin_12, crate::proofs::Calls::begin_13, crate::proofs::Calls::begin_0, crate::proofs::Calls::next_last, kind::proofs::Lengths::status_length))]
pub fn begin(data: &[u8], undo: &[u8], status: &mut [u8], desk: &mut Words) -> Result<u64, Refusal>
    ensures does { Does (begin_rule (areas «data».now undo.now status.old) (desk_in desk.old)) (said_begun result desk.new) status.new }
    ensures desks { Desks desk.old desk.new }
{
    if !kind::lengths_ok(data.len(), undo.len(), status.len()) {
        return Err(Refusal::BadLength);
    }
    if !words::is_sound(desk) {
        return Err(Refusal::Unsound);
    }
    if words::open_count(desk) == Limits::SESSIONS {
        return Err(Refusal::TooManyOpen);
    }
    let number = words::next(desk);
    if number == Desk::LAST_NEXT {
        return Err(Refusal::NumbersUsed);
    }
    status::put_status(status, number as usize, Status::InWork);
    page::header::put_txn_id(status, 0, u64::from(number));
    let new = words::desk_in(desk).begin();
    words::put_desk(desk, &new);
    Ok(u64::from(number))
}

// Moves a session on to its next statement.
#[tactic(auto, using(crate::proofs::Calls::next_refused, crate::proofs::Calls::next_14, crate::proofs::Calls::next_0, admit::proofs::Admissions::admits_unspoiled, crate::proofs::Calls::bounds))]
pub fn next(
    data: &[u8],
    undo: &[u8],
    status: &[u8],
    desk: &mut Words,
    session: u64,
) -> Result<(), Refusal>
    ensures does { said result desk.new ≡ next_rule (areas «data».now undo.now status.now) (desk_in desk.old) session }
    ensures desks { Desks desk.old desk.new }
{
    let k = admit::admit_unspoiled(data.len(), undo.len(), status.len(), desk, session)?;
    if words::statement(desk, k) == Limits::LAST_STATEMENT {
        return Err(Refusal::StatementsUsed);
    }
    let new = words::desk_in(desk).next_statement(k);
    words::put_desk(desk, &new);
    Ok(())
}

// Commits a session: its status becomes 01, and it is closed.
#[tactic(auto, using(crate::proofs::Calls::commit_refused, crate::proofs::Calls::commit_0, admit::proofs::Admissions::admits_unspoiled))]
pub fn commit(
    data: &[u8],
    undo: &[u8],
    status: &mut [u8],
    desk: &mut Words,
    session: u64,
) -> Result<(), Refusal>
    ensures does { Does (commit_rule (areas «data».now undo.now status.old) (desk_in desk.old) session) (said result desk.new) status.new }
    ensures desks { Desks desk.old desk.new }
{
    let k = admit::admit_unspoiled(data.len(), undo.len(), status.len(), desk, session)?;
    status::put_status(status, session as usize, Status::Committed);
    let new = words::desk_in(desk).commit(k);
    words::put_desk(desk, &new);
    Ok(())
}
