// Writes that touch: "A page in which insert, update, delete or withdraw writes or frees a slot or entry is touched and gets the
// session's number as txn_id", and its item_count is counted anew ("01, The page"). No caller keeps a set of touched pages. The three
// differ in what they write; what they share is `touch` of `page`.
#![tactic(auto)]

ghost use Rattle.std.specs.Prelude.{◌≡◌, ◌<◌, length};
ghost use Rattle.kind.specs.Kind.{rows, entries};
ghost use Rattle.touching.specs.Touching.{with_slot, with_meta, with_entry};

use kind::Kind;
use records::entry::Entry;
use records::slot::Slot;

// Writes row r whole, for session txn.
#[tactic(auto, using(crate::proofs::Touchings::with_slot_stored))]
pub fn write_slot(data: &mut [u8], r: usize, m: Slot, body: &[u8], txn: u64)
    requires { (r < rows «data».old) × (length body.now ≡ 32) }
    ensures { «data».new ≡ with_slot txn r m body.now «data».old }
{
    records::slot::write_slot(data, r, m, body);
    page::count::touch(data, r / Kind::DATA.count, Kind::DATA, txn);
}

// Writes the metadata of row r alone, for session txn.
#[tactic(auto, using(crate::proofs::Touchings::with_meta_stored))]
pub fn write_meta(data: &mut [u8], r: usize, m: Slot, txn: u64)
    requires { r < rows «data».old }
    ensures { «data».new ≡ with_meta txn r m «data».old }
{
    records::slot::write_meta(data, r, m);
    page::count::touch(data, r / Kind::DATA.count, Kind::DATA, txn);
}

// Writes entry e whole, for session txn.
#[tactic(auto, using(crate::proofs::Touchings::with_entry_stored))]
pub fn write_entry(undo: &mut [u8], e: usize, m: Entry, body: &[u8], txn: u64)
    requires { (e < entries undo.old) × (length body.now ≡ 32) }
    ensures { undo.new ≡ with_entry txn e m body.now undo.old }
{
    records::entry::write_entry(undo, e, m, body);
    page::count::touch(undo, e / Kind::UNDO.count, Kind::UNDO, txn);
}
