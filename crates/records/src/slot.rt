// Slots: metadata and a body ("01, The page"). The copy in an undo entry is read and written by the same two functions.
ghost use Rattle.std.specs.Prelude.{◌≡◌, ◌+◌, ◌<◌, ◌≤◌, length};
ghost use Rattle.std.proofs.lemmas.List.Edits.{sets};
ghost use Rattle.little.specs.Little.{part, bytes_of};
ghost use Rattle.kind.specs.Kind.{rows};
ghost use Rattle.records.specs.Slot.{slot_of, slot_fields, slot_at, put_slot, put_meta, clear_slot};

use kind::Kind;
use little::Number;

#[derive(Clone, Copy)]
pub struct Slot {
    pub create: u64,
    pub expire: u64,
    pub undo_ptr: u64,
    pub cmd: u32,
    pub expire_cmd: u32,
}

// The metadata that stands in the 32 bytes from index at on.
#[tactic(auto, using(crate::proofs::Slots::slot_of_read))]
pub fn get_meta(s: &[u8], at: usize) -> Slot
    requires { at + 32 ≤ length s.now }
    ensures { result ≡ slot_of (part at 64 s.now) }
{
    Slot {
        create: u64::get(s, at),
        expire: u64::get(s, at + 8),
        undo_ptr: u64::get(s, at + 16),
        cmd: u32::get(s, at + 24),
        expire_cmd: u32::get(s, at + 28),
    }
}

// Stores metadata in the 32 bytes from index at on.
#[tactic(auto, using(crate::proofs::Slots::slot_fields_stores))]
pub fn put_meta(s: &mut [u8], at: usize, m: Slot)
    requires { at + 32 ≤ length s.old }
    ensures { s.new ≡ sets s.old at (bytes_of (slot_fields m)) }
{
    u64::put(s, at, m.create);
    u64::put(s, at + 8, m.expire);
    u64::put(s, at + 16, m.undo_ptr);
    u32::put(s, at + 24, m.cmd);
    u32::put(s, at + 28, m.expire_cmd);
}

// The metadata of row r.
#[tactic(auto, using(crate::proofs::Slots::slot_at_read))]
pub fn read_slot(s: &[u8], r: usize) -> Slot
    requires { r < rows s.now }
    ensures { result ≡ slot_at r s.now }
{
    get_meta(s, Kind::DATA.place(r))
}

// Writes row r whole. A body is a slice and no array, since callers have it as a part of an area or as it was lent.
#[tactic(auto, using(crate::proofs::Slots::put_slot_stored))]
pub fn write_slot(s: &mut [u8], r: usize, m: Slot, body: &[u8])
    requires { (r < rows s.old) × (length body.now ≡ 32) }
    ensures { s.new ≡ put_slot r m body.now s.old }
{
    let at = Kind::DATA.place(r);
    put_meta(s, at, m);
    little::put_bytes(s, at + 32, body);
}

// Writes the metadata of row r alone.
#[tactic(auto, using(crate::proofs::Slots::put_meta_stored))]
pub fn write_meta(s: &mut [u8], r: usize, m: Slot)
    requires { r < rows s.old }
    ensures { s.new ≡ put_meta r m s.old }
{
    put_meta(s, Kind::DATA.place(r), m);
}

// Empties row r: all zeros.
#[tactic(auto, using(crate::proofs::Slots::clear_slot_stored))]
pub fn clear_slot(s: &mut [u8], r: usize)
    requires { r < rows s.old }
    ensures { s.new ≡ clear_slot r s.old }
{
    little::put_zeros(s, Kind::DATA.place(r), Kind::DATA.size);
}
