// Emptying and freeing ("01, The page": "Whatever is emptied or freed becomes all zeros"), for withdraw, which touches pages with the
// session's number, and for the sweep: "sweeping touches pages alike but leaves txn_id". The sweep writes many records of few pages, so
// its writers only note in `due` that the page's count is due, one flag for each page, and `tally` counts each such page once. A flag is a
// byte and no bool: what `tally` promises is of every byte, and any but 0 is a flag that is set. What is done to a slot and what to an entry
// stays apart: each is one write and one note, and a function for both would be given them as closures.
#![tactic(auto)]

ghost use Rattle.std.specs.Prelude.{◌≡◌, ◌≤◌, ◌<◌, length};
ghost use Rattle.kind.specs.Kind.{data_kind, undo_kind, pages, rows, entries};
ghost use Rattle.page.specs.Count.{Roomy};
ghost use Rattle.freeing.specs.Freeing.{without_slot, without_entry, swept_slot, swept_entry, cut_slot, cut_copy};
ghost use Rattle.freeing.specs.Tally.{tallied};

use kind::Kind;
use records::slot::Slot;

// Empties row r, for session txn.
pub fn empty_slot(data: &mut [u8], r: usize, txn: u64)
    requires { r < rows «data».old }
    ensures { «data».new ≡ without_slot txn r «data».old }
{
    records::slot::clear_slot(data, r);
    page::count::touch(data, r / Kind::DATA.count, Kind::DATA, txn);
}

// Frees entry e, for session txn.
pub fn free_entry(undo: &mut [u8], e: usize, txn: u64)
    requires { e < entries undo.old }
    ensures { undo.new ≡ without_entry txn e undo.old }
{
    records::entry::clear_entry(undo, e);
    page::count::touch(undo, e / Kind::UNDO.count, Kind::UNDO, txn);
}

// Empties row r, for the sweep.
pub fn sweep_slot(data: &mut [u8], due: &mut [u8], r: usize)
    requires { (r < rows «data».old) × (pages «data».old ≤ length due.old) }
    ensures { tallied data_kind due.new «data».new ≡ swept_slot r (tallied data_kind due.old «data».old) }
{
    records::slot::clear_slot(data, r);
    due[r / Kind::DATA.count] = 1;
}

// Frees entry e, for the sweep.
pub fn sweep_entry(undo: &mut [u8], due: &mut [u8], e: usize)
    requires { (e < entries undo.old) × (pages undo.old ≤ length due.old) }
    ensures { tallied undo_kind due.new undo.new ≡ swept_entry e (tallied undo_kind due.old undo.old) }
{
    records::entry::clear_entry(undo, e);
    due[e / Kind::UNDO.count] = 1;
}

// Writes the metadata of row r, whose older versions the sweep has removed.
pub fn cut_slot(data: &mut [u8], due: &mut [u8], r: usize, m: Slot)
    requires { (r < rows «data».old) × (pages «data».old ≤ length due.old) }
    ensures { tallied data_kind due.new «data».new ≡ cut_slot r m (tallied data_kind due.old «data».old) }
{
    records::slot::write_meta(data, r, m);
    due[r / Kind::DATA.count] = 1;
}

// Writes the metadata of the copy in entry e, whose older versions the sweep has removed.
pub fn cut_copy(undo: &mut [u8], due: &mut [u8], e: usize, m: Slot)
    requires { (e < entries undo.old) × (pages undo.old ≤ length due.old) }
    ensures { tallied undo_kind due.new undo.new ≡ cut_copy e m (tallied undo_kind due.old undo.old) }
{
    records::entry::write_copy(undo, e, m);
    due[e / Kind::UNDO.count] = 1;
}

// Counts the pages of an area whose count is due.
pub fn tally(s: &mut [u8], due: &[u8], k: Kind)
    requires { (pages s.old ≤ length due.now) × Roomy k }
    ensures { s.new ≡ tallied k due.now s.old }
{
    for p in 0..kind::pages(s) {
        if due[p] != 0 {
            page::count::recount(s, p, k);
        }
    }
}
