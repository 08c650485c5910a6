// What read, update and delete ask of a row, once the session is admitted ("01, When the desk says no", 5 to 10, and "02, T-05", 17): the
// row, the version that the session reads, doubt on the way to it, and for a write what the slot says.
#![tactic(auto)]

ghost use Rattle.std.specs.Prelude.{◌≡◌};
ghost use Rattle.answer.specs.Code.{number_of};
ghost use Rattle.sight.specs.Sight.{said_view};
ghost use Rattle.seeking.specs.Seeking.{seek_rule, write_refusal};

use answer::Refusal;
use chain::Found;
use sight::{StatusPage, View};

// Finds the version of a row that the session reads: the number of versions looked at is told with it.
#[tactic(auto, using(crate::proofs::Seekings::seek_outside, crate::proofs::Seekings::seek_at, crate::proofs::Seekings::seek_none))]
pub fn seek(
    data: &[u8],
    undo: &[u8],
    status: StatusPage,
    view: View,
    row: usize,
) -> Result<Found, Refusal>
    ensures { result ≡ seek_rule «data».now undo.now status.entry.bytes.now (said_view view.entry) row }
{
    if row >= kind::rows(data) {
        return Err(Refusal::BadArgument);
    }
    // The form that 01 names for a walk without a version.
    let walk = doubt::search(data, undo, status, view, row);
    let Ok(found) = walk else {
        return Ok(walk?);
    };
    Ok(found)
}

// Whether the session may write a row, or the first of 5, 6, 17 and 7 to 10 that holds. "Once 7 is passed, look at the slot."
#[tactic(auto, using(crate::proofs::Seekings::seek_inside, crate::proofs::Seekings::write_unsought, crate::proofs::Seekings::write_says))]
pub fn may_write(
    data: &[u8],
    undo: &[u8],
    status: StatusPage,
    view: View,
    row: usize,
) -> Result<(), Refusal>
    ensures { number_of result ≡ write_refusal «data».now undo.now status.entry.bytes.now (said_view view.entry) row }
{
    seek(data, undo, status, view, row)?;
    let m = records::slot::read_slot(data, row);
    conflict::conflict_of(view, status, chain::stamp_of(m))
}
