// Sweep ("01, Writes, withdrawal, sweep", "01, When the desk says no"): all rows that it treats are looked at before the first byte is
// written.
// The areas are lent apart, as C lends them: a call writes some of them and only reads others.
#![tactic(auto)]

ghost use Rattle.std.specs.Prelude.{◌≡◌, true, ◌+◌, ◌≤◌, length};
ghost use Rattle.ground.specs.Does.{Does};
ghost use Rattle.kind.specs.Kind.{data_kind, undo_kind, pages, rows, lengths_ok};
ghost use Rattle.kind.specs.Areas.{areas, both};
ghost use Rattle.words.specs.Words.{desk_in};
ghost use Rattle.freeing.specs.Tally.{tallied, tallied_both};
ghost use Rattle.sweeping.specs.Sweeping.{all_whole, swept_from, removed_from, said_swept, sweep_rule};

use answer::Refusal;
use kind::Kind;
use sight::StatusPage;
use trimming::Sweep;
use words::Words;

// What a sweep answers: the next row and the versions removed.
#[derive(Drop)]
pub struct Swept {
    pub next: usize,
    pub removed: usize,
}

// Whether the n rows from first on have no break.
fn are_whole(data: &[u8], undo: &[u8], first: usize, n: usize) -> bool
    requires { first + n ≤ rows «data».now }
    ensures { result ≡ all_whole «data».now undo.now first n }
{
    (first..first + n).all(|r| trimming::is_whole(data, undo, r))
}

// Sweeps the n rows from first on, the counts of the pages written in left due, and answers the versions removed, whose number fits in
// areas of allowed lengths.
fn sweep_uncounted(
    data: &mut [u8],
    undo: &mut [u8],
    data_due: &mut [u8],
    undo_due: &mut [u8],
    sweep: Sweep,
    first: usize,
    n: usize,
) -> usize
    requires { (first + n ≤ rows «data».old) × (lengths_ok (length «data».old) (length undo.old) (length sweep.status.bytes.now) ≡ true) × (pages «data».old ≤ length data_due.old) × (pages undo.old ≤ length undo_due.old) × (all_whole (tallied data_kind data_due.old «data».old) (tallied undo_kind undo_due.old undo.old) first n ≡ true) }
    ensures counts { result ≡ removed_from sweep.entry.mark sweep.entry.status.bytes.now first n (tallied_both data_due.old «data».old undo_due.old undo.old) }
    ensures leaves { tallied_both data_due.new «data».new undo_due.new undo.new ≡ swept_from sweep.entry.mark sweep.entry.status.bytes.now first n (tallied_both data_due.old «data».old undo_due.old undo.old) }
{
    let mut removed = 0;
    for r in first..first + n {
        removed += trimming::sweep_row(data, undo, data_due, undo_due, sweep, r);
    }
    removed
}

// Sweeps the n rows from first on, counts each page written in once, and answers the versions removed.
fn sweep_rows(data: &mut [u8], undo: &mut [u8], sweep: Sweep, first: usize, n: usize) -> usize
    requires { (first + n ≤ rows «data».old) × (lengths_ok (length «data».old) (length undo.old) (length sweep.status.bytes.now) ≡ true) × (all_whole «data».old undo.old first n ≡ true) }
    ensures counts { result ≡ removed_from sweep.entry.mark sweep.entry.status.bytes.now first n (both «data».old undo.old) }
    ensures leaves { both «data».new undo.new ≡ swept_from sweep.entry.mark sweep.entry.status.bytes.now first n (both «data».old undo.old) }
{
    let mut data_due = [0; Kind::DATA.most];
    let mut undo_due = [0; Kind::UNDO.most];
    let removed = sweep_uncounted(data, undo, &mut data_due, &mut undo_due, sweep, first, n);
    freeing::tally(data, &data_due, Kind::DATA);
    freeing::tally(undo, &undo_due, Kind::UNDO);
    removed
}

// Sweeps min(quota, rows left) rows from first on.
#[tactic(auto, using(crate::proofs::Calls::sweep_1, crate::proofs::Calls::sweep_2, crate::proofs::Calls::sweep_5, crate::proofs::Calls::sweep_6, crate::proofs::Calls::treats, kind::proofs::Lengths::status_length))]
pub fn sweep(
    data: &mut [u8],
    undo: &mut [u8],
    status: &[u8],
    desk: &Words,
    first: usize,
    quota: usize,
) -> Result<Swept, Refusal>
    ensures { Does (sweep_rule (areas «data».old undo.old status.now) (desk_in desk.now) first quota) (said_swept result) (areas «data».new undo.new status.now) }
{
    if !kind::lengths_ok(data.len(), undo.len(), status.len()) {
        return Err(Refusal::BadLength);
    }
    if !words::is_sound(desk) {
        return Err(Refusal::Unsound);
    }
    let rows = kind::rows(data);
    if first > rows {
        return Err(Refusal::BadArgument);
    }
    let n = quota.min(rows - first);
    if !are_whole(data, undo, first, n) {
        return Err(Refusal::Broken);
    }
    let sweep = Sweep {
        status: StatusPage { bytes: status },
        mark: u64::from(words::mark(desk)),
    };
    let removed = sweep_rows(data, undo, sweep, first, n);
    Ok(Swept {
        next: first + n,
        removed,
    })
}
