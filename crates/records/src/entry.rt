// Undo entries: writer, row number, and a slot copy ("01, The page").
ghost use Rattle.std.specs.Prelude.{◌≡◌, ◌+◌, ◌<◌, ◌≤◌, length};
ghost use Rattle.little.specs.Little.{part};
ghost use Rattle.kind.specs.Kind.{entries};
ghost use Rattle.records.specs.Entry.{entry_of, put_entry, put_copy, clear_entry};

use crate::slot::Slot;
use kind::Kind;
use little::Number;

#[derive(Clone, Copy)]
pub struct Entry {
    pub writer: u64,
    pub row: u32,
    pub copy: Slot,
}

// The entry that stands in the 80 bytes from index at on. A walk has the index from a pointer, which says it without a division.
#[tactic(auto, using(crate::proofs::Entries::entry_of_read))]
pub fn get_entry(u: &[u8], at: usize) -> Entry
    requires { at + 80 ≤ length u.now }
    ensures { result ≡ entry_of (part at 80 u.now) }
{
    Entry {
        writer: u64::get(u, at),
        row: u32::get(u, at + 8),
        copy: crate::slot::get_meta(u, at + 16),
    }
}

// Writes entry e whole.
#[tactic(auto, using(crate::proofs::Entries::entry_inside, crate::proofs::Entries::put_entry_stored))]
pub fn write_entry(u: &mut [u8], e: usize, m: Entry, body: &[u8])
    requires { (e < entries u.old) × (length body.now ≡ 32) }
    ensures { u.new ≡ put_entry e m body.now u.old }
{
    let at = Kind::UNDO.place(e);
    u64::put(u, at, m.writer);
    u32::put(u, at + 8, m.row);
    u32::put(u, at + 12, 0);
    crate::slot::put_meta(u, at + 16, m.copy);
    little::put_bytes(u, at + 48, body);
}

// Writes the metadata of the copy in entry e alone.
#[tactic(auto, using(crate::proofs::Entries::put_copy_stored))]
pub fn write_copy(u: &mut [u8], e: usize, m: Slot)
    requires { e < entries u.old }
    ensures { u.new ≡ put_copy e m u.old }
{
    crate::slot::put_meta(u, Kind::UNDO.place(e) + 16, m);
}

// Frees entry e: all zeros. One function for slots and entries would be no shorter: it would take the kind, and be this line.
#[tactic(auto, using(crate::proofs::Entries::entry_inside, crate::proofs::Entries::clear_entry_stored))]
pub fn clear_entry(u: &mut [u8], e: usize)
    requires { e < entries u.old }
    ensures { u.new ≡ clear_entry e u.old }
{
    little::put_zeros(u, Kind::UNDO.place(e), Kind::UNDO.size);
}
