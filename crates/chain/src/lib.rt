// A row's versions, from the slot along the undo pointers ("01, Sessions and sight"), step by step, and where a version's body lies. What the
// walk along them finds is said in specs/; its loop is `doubt`'s.
#![tactic(auto)]

ghost use Rattle.std.specs.Prelude.{◌≡◌};
ghost use Rattle.chain.specs.Chain.{link_of};
ghost use Rattle.chain.specs.Walk.{stamp_of, body_of, body_from};

use kind::Kind;
use pointer::{Lead, Pointer};
use records::entry::Entry;
use records::slot::Slot;
use sight::Stamp;

// Where a version lies: nowhere, in the slot of a row, or as the copy in an entry. Nowhere is the definitions': a refused read has it.
#[derive(Clone, Copy, PartialEq, Eq)]
pub enum Place {
    Nowhere,
    Data(usize),
    Undo(usize),
}

// The version that a walk found: where it lies, and how many versions were looked at.
#[derive(Clone, Copy)]
pub struct Found {
    pub place: Place,
    pub looked: usize,
}

// What the walk finds, in the definitions: a version with the number of versions looked at, that there is none, or a break before one.
// The theorems speak of it, so that it stays an enum of its own; the code answers it with doubt beside it (`doubt::search`).
#[derive(Drop)]
pub enum Walk {
    Found(Place, usize),
    Absent,
    Broken,
}

// Where a pointer of a row leads: to the chain's end, to a break, or to an entry that carries a version of the row. Three ends of equal
// rank, so that an Option in a Result would be no plainer.
#[derive(Drop)]
pub enum Link {
    End,
    Break,
    To(usize, Entry),
}

// Follows a pointer: "A chain is broken at a pointer that isn't well formed, leads outside the area or between entries, leads to a
// free entry, one of another row or one whose copy has create 0".
#[tactic(auto, using(pointer::proofs::PointerLaws::lead_of_page, crate::proofs::Links::link_room, crate::proofs::Links::link_end, crate::proofs::Links::link_astray, crate::proofs::Links::read_unfit, crate::proofs::Links::read_to))]
pub fn follow(undo: &[u8], row: usize, ptr: u64) -> Link
    ensures { result ≡ link_of undo.now row ptr }
{
    let pointer = Pointer { raw: ptr };
    match pointer.lead(kind::pages(undo)) {
        Lead::Nowhere => Link::End,
        Lead::Astray => Link::Break,
        Lead::Entry(e) => {
            // The next pointer of a walk comes from this read, so it waits for no division: e is only answered.
            let m = records::entry::get_entry(undo, pointer.place());
            if (m.writer == 0) | (m.row as usize != row) | (m.copy.create == 0) {
                return Link::Break;
            }
            Link::To(e, m)
        }
    }
}

// What sight looks at in a slot or a slot copy. No `From`, since both types are of crates below.
pub fn stamp_of(m: Slot) -> Stamp
    ensures { result ≡ stamp_of m }
{
    Stamp {
        create: m.create,
        expire: m.expire,
        cmd: m.cmd,
        expire_cmd: m.expire_cmd,
    }
}

// The body of the version at a place, "handed back where it lies, in the data area or the undo area, never a copy"; the empty part of
// data where there is no such place.
pub fn body<'a>(data: &'a [u8], undo: &'a [u8], place: Place) -> &'a [u8]
    ensures holds { result.now ≡ body_of place «data».now undo.now }
    ensures lies { result.ref_ptr ≡ body_from place «data».now undo.now «data».entry.ref_ptr undo.entry.ref_ptr }
{
    match place {
        Place::Data(r) if r < kind::rows(data) => {
            let at = Kind::DATA.place(r) + 32;
            &data[at..at + 32]
        }
        Place::Undo(e) if e < kind::entries(undo) => {
            let at = Kind::UNDO.place(e) + 48;
            &undo[at..at + 32]
        }
        _ => &data[0..0],
    }
}
