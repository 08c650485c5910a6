// What the sweep does to one row ("01, Writes, withdrawal, sweep"): "the first version whose expirer is committed and below the mark
// goes with all older ones; the newer version's pointer becomes 0, or the slot is emptied". The row's chain is whole. The counts of the
// pages written in are due in the flags lent, so each contract speaks of the areas tallied, before and after. Area and flags stay two: no
// struct of both could be of any length that reaches.
#![tactic(auto)]

ghost use Rattle.std.specs.Prelude.{◌≡◌, true, ◌≤◌, ◌<◌, length};
ghost use Rattle.kind.specs.Kind.{data_kind, undo_kind, pages, rows};
ghost use Rattle.records.specs.Slot.{unlinked};
ghost use Rattle.chain.specs.Chain.{chain_of};
ghost use Rattle.freeing.specs.Tally.{tallied, tallied_both};
ghost use Rattle.trimming.specs.Trimming.{dead_in, inside, cut_at, swept_row, gone_row};
ghost use Rattle.trimming.specs.Rest.{rest_from, swept_rest, gone_older, swept_older};

use chain::{Link, Place};
use pointer::Pointer;
use records::slot::Slot;
use sight::StatusPage;

// What a sweep goes by: the status page, which says who is committed, and the mark.
#[derive(Clone, Copy)]
pub struct Sweep<'a> {
    pub status: StatusPage<'a>,
    pub mark: u64,
}

impl<'a> Sweep<'a> {
    // Whether a version's "expirer is committed and below the mark".
    #[tactic(auto, unfolding(sight::specs::Conflict::is_dead))]
    fn is_dead(self, m: Slot) -> bool
        ensures { result ≡ dead_in self.entry.mark self.entry.status.bytes.now m }
    {
        self.status.is_committed(m.expire) && m.expire < self.mark
    }
}

// Whether the chain of row r is whole. Where it goes round, one copy more is met than there are entries.
pub fn is_whole(data: &[u8], undo: &[u8], r: usize) -> bool
    requires { r < rows «data».now }
    ensures { result ≡ (chain_of «data».now undo.now r).whole }
{
    let m = records::slot::read_slot(data, r);
    if m.create == 0 {
        return true;
    }
    let mut ptr = m.undo_ptr;
    for _ in 0..=kind::entries(undo) {
        match chain::follow(undo, r, ptr) {
            Link::End => return true,
            Link::Break => return false,
            Link::To(_, n) => ptr = n.copy.undo_ptr,
        }
    }
    false
}

// Frees the entries of row r from a pointer on, and counts them.
fn free_rest(undo: &mut [u8], due: &mut [u8], r: usize, first: u64) -> usize
    requires { pages undo.old ≤ length due.old }
    ensures counts { result ≡ length (rest_from r first (tallied undo_kind due.old undo.old)).versions }
    ensures leaves { tallied undo_kind due.new undo.new ≡ swept_rest r first (tallied undo_kind due.old undo.old) }
{
    let most = kind::entries(undo);
    let mut ptr = first;
    for n in 0..most {
        let Link::To(e, m) = chain::follow(undo, r, ptr) else {
            return n;
        };
        freeing::sweep_entry(undo, due, e);
        ptr = m.copy.undo_ptr;
    }
    most
}

// A version behind which nothing is left: "the newer version's pointer becomes 0".
fn unlink(m: Slot) -> Slot
    ensures { result ≡ unlinked m }
{
    Slot {
        undo_ptr: Pointer::NONE.raw,
        ..m
    }
}

// Cuts the chain behind the version m that lies at a place.
fn cut(
    data: &mut [u8],
    undo: &mut [u8],
    data_due: &mut [u8],
    undo_due: &mut [u8],
    at: Place,
    m: Slot,
)
    requires { inside at «data».old undo.old × (pages «data».old ≤ length data_due.old) × (pages undo.old ≤ length undo_due.old) }
    ensures { tallied_both data_due.new «data».new undo_due.new undo.new ≡ cut_at at m (tallied_both data_due.old «data».old undo_due.old undo.old) }
{
    match at {
        Place::Nowhere => {}
        Place::Data(r) => freeing::cut_slot(data, data_due, r, unlink(m)),
        Place::Undo(e) => freeing::cut_copy(undo, undo_due, e, unlink(m)),
    }
}

// Sweeps behind the slot m of row r, which stays: from the first copy that goes on.
fn sweep_behind(
    data: &mut [u8],
    undo: &mut [u8],
    data_due: &mut [u8],
    undo_due: &mut [u8],
    sweep: Sweep,
    r: usize,
    m: Slot,
) -> usize
    requires { (r < rows «data».old) × (pages «data».old ≤ length data_due.old) × (pages undo.old ≤ length undo_due.old) × ((rest_from r m.undo_ptr (tallied undo_kind undo_due.old undo.old)).whole ≡ true) }
    ensures counts { result ≡ gone_older sweep.entry.mark sweep.entry.status.bytes.now r m (tallied_both data_due.old «data».old undo_due.old undo.old) }
    ensures leaves { tallied_both data_due.new «data».new undo_due.new undo.new ≡ swept_older sweep.entry.mark sweep.entry.status.bytes.now r m (tallied_both data_due.old «data».old undo_due.old undo.old) }
{
    let mut at = Place::Data(r);
    let mut newer = m;
    for _ in 0..kind::entries(undo) {
        let Link::To(e, next) = chain::follow(undo, r, newer.undo_ptr) else {
            return 0;
        };
        let copy = next.copy;
        if sweep.is_dead(copy) {
            let n = free_rest(undo, undo_due, r, newer.undo_ptr);
            cut(data, undo, data_due, undo_due, at, newer);
            return n;
        }
        at = Place::Undo(e);
        newer = copy;
    }
    0
}

// Sweeps one row, and answers the versions removed.
pub fn sweep_row(
    data: &mut [u8],
    undo: &mut [u8],
    data_due: &mut [u8],
    undo_due: &mut [u8],
    sweep: Sweep,
    r: usize,
) -> usize
    requires { (r < rows «data».old) × (pages «data».old ≤ length data_due.old) × (pages undo.old ≤ length undo_due.old) × ((chain_of (tallied data_kind data_due.old «data».old) (tallied undo_kind undo_due.old undo.old) r).whole ≡ true) }
    ensures counts { result ≡ gone_row sweep.entry.mark sweep.entry.status.bytes.now r (tallied_both data_due.old «data».old undo_due.old undo.old) }
    ensures leaves { tallied_both data_due.new «data».new undo_due.new undo.new ≡ swept_row sweep.entry.mark sweep.entry.status.bytes.now r (tallied_both data_due.old «data».old undo_due.old undo.old) }
{
    let m = records::slot::read_slot(data, r);
    if m.create == 0 {
        return 0;
    }
    if sweep.is_dead(m) {
        let n = free_rest(undo, undo_due, r, m.undo_ptr);
        freeing::sweep_slot(data, data_due, r);
        return n + 1;
    }
    sweep_behind(data, undo, data_due, undo_due, sweep, r, m)
}
