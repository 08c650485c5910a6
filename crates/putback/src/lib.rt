// What withdrawing does to one row ("01, Writes, withdrawal, sweep"). It is written over "S in statement k or later", so that a
// session can be withdrawn from any of its statements on.
#![tactic(auto)]

ghost use Rattle.std.specs.Prelude.{◌≡◌, [], ◌<◌};
ghost use Rattle.kind.specs.Kind.{rows, entries};
ghost use Rattle.kind.specs.Areas.{both};
ghost use Rattle.records.specs.Entry.{copy_body_at};
ghost use Rattle.touching.specs.Touching.{with_slot};
ghost use Rattle.freeing.specs.Freeing.{without_entry};
ghost use Rattle.chain.specs.Chain.{chain_from};
ghost use Rattle.putback.specs.PutBack.{own, unexpired, taken_back, undone_row};

use chain::Link;
use kind::Kind;
use records::slot::Slot;

// "S in statement k or later": whose versions are taken back.
#[derive(Clone, Copy)]
pub struct Since {
    pub number: u64,
    pub statement: u32,
}

impl Since {
    // Whether x, at statement cmd, is S in statement k or later.
    #[tactic(auto, unfolding(crate::specs::PutBack::own))]
    pub fn is(self, x: u64, cmd: u32) -> bool
        ensures { result ≡ own self.number self.statement x cmd }
    {
        (x == self.number) & (self.statement <= cmd)
    }
}

// A version that nobody has ended: "with expire and expire_cmd cleared".
fn unexpire(m: Slot) -> Slot
    ensures { result ≡ unexpired m }
{
    Slot {
        expire: 0,
        expire_cmd: 0,
        ..m
    }
}

// "put back the copy from its chain, with expire and expire_cmd cleared, and free the entry". The body goes from area to area.
#[tactic(auto, using(records::proofs::Entries::entry_inside, records::proofs::Bodies::copy_body_at_cut))]
fn put_back(data: &mut [u8], undo: &mut [u8], r: usize, e: usize, copy: Slot, number: u64)
    requires { (r < rows «data».old) × (e < entries undo.old) }
    ensures leaves_data { «data».new ≡ with_slot number r (unexpired copy) (copy_body_at e undo.old) «data».old }
    ensures leaves_undo { undo.new ≡ without_entry number e undo.old }
{
    let at = Kind::UNDO.place(e) + 48;
    touching::write_slot(data, r, unexpire(copy), &undo[at..at + 32], number);
    freeing::free_entry(undo, e, number);
}

// Takes back the session's versions behind a slot that it created: frees the entries of its own, and puts back the first copy that is
// not; "If no copy is left, empty the slot."
fn take_back(data: &mut [u8], undo: &mut [u8], r: usize, first: u64, since: Since)
    requires { r < rows «data».old }
    ensures { both «data».new undo.new ≡ taken_back since.number since.statement r (chain_from undo.old r (entries undo.old) [] first).versions (both «data».old undo.old) }
{
    let mut ptr = first;
    for _ in 0..kind::entries(undo) {
        let Link::To(e, m) = chain::follow(undo, r, ptr) else {
            break;
        };
        let copy = m.copy;
        if !since.is(copy.create, copy.cmd) {
            put_back(data, undo, r, e, copy, since.number);
            return;
        }
        freeing::free_entry(undo, e, since.number);
        ptr = copy.undo_ptr;
    }
    freeing::empty_slot(data, r, since.number);
}

// Withdraws from one row: "If the slot's creator is S .. If instead only the expirer is S, clear both expire fields." An empty slot is
// passed by.
pub fn undo_row(data: &mut [u8], undo: &mut [u8], r: usize, since: Since)
    requires { (r < rows «data».old) × (0 < since.number) }
    ensures { both «data».new undo.new ≡ undone_row since.number since.statement r (both «data».old undo.old) }
{
    let m = records::slot::read_slot(data, r);
    if since.is(m.create, m.cmd) {
        take_back(data, undo, r, m.undo_ptr, since);
    } else if (m.create != 0) & since.is(m.expire, m.expire_cmd) {
        touching::write_meta(data, r, unexpire(m), since.number);
    }
}
