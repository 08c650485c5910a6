// Undo pointers: 4 × 2^56 + page × 2^24 + offset × 2^8 ("01, The page").
#![tactic(auto)]

ghost use Rattle.std.specs.Prelude.{◌≡◌, ◌<◌, ◌≤◌, ◌^◌};
ghost use Rattle.kind.specs.Kind.{undo_kind};
ghost use Rattle.pointer.specs.Pointer.{pointer_to, page_in, offset_in, place_led, lead_of, well_formed, at_entry};

use kind::Kind;

#[derive(Clone, Copy)]
pub struct Pointer {
    pub raw: u64,
}

// Where a pointer leads. Three ends of equal rank, so that an Option in a Result would be no plainer.
#[derive(Drop)]
pub enum Lead {
    // Nowhere: it is 0, which means none.
    Nowhere,
    // To an entry of the area.
    Entry(usize),
    // It isn't well formed, or leads outside the area or between entries.
    Astray,
}

// The top byte of every pointer.
const TOP: u64 = 4;

impl Pointer {
    // 0 means none.
    pub const NONE: Pointer = Pointer { raw: 0 };

    // The pointer to entry e. The page number has 32 bits.
    #[tactic(auto, unfolding(crate::specs::Pointer::pointer_to))]
    pub fn to(e: usize) -> Pointer
        requires { e < 2 ^ 32 }
        ensures { result.raw ≡ pointer_to e }
    {
        let page = e / Kind::UNDO.count + 1;
        let offset = Kind::HEADER + e % Kind::UNDO.count * Kind::UNDO.size;
        Pointer {
            raw: (TOP << 56) + ((page as u64) << 24) + ((offset as u64) << 8),
        }
    }

    // Where the pointer leads in an area of so many pages; what leads astray breaks its chain ("01, Sessions and sight").
    #[tactic(auto, using(crate::proofs::PointerLaws::lead_of_zero, crate::proofs::PointerLaws::lead_of_tests, crate::proofs::PointerLaws::lead_of_passed))]
    pub fn lead(self, pages: usize) -> Lead
        ensures { result ≡ lead_of pages self.raw }
    {
        let v = self.raw;
        let page = page_in(v);
        let offset = offset_in(v);
        if v == 0 {
            Lead::Nowhere
        } else if well_formed(v) & (1 <= page) & (page <= pages) & at_entry(offset) {
            let e = (page - 1) * Kind::UNDO.count + (offset - Kind::HEADER) / Kind::UNDO.size;
            Lead::Entry(e)
        } else {
            Lead::Astray
        }
    }

    // The byte of the area at which the pointer leads, as its page and offset say it. Where it leads to an entry, the entry begins
    // there, and a walk need not wait for the entry's number.
    #[tactic(auto, unfolding(crate::specs::Pointer::place_led))]
    pub fn place(self) -> usize
        requires { 1 ≤ page_in self.raw }
        ensures { result ≡ place_led self.raw }
    {
        let v = self.raw;
        (page_in(v) - 1) * Kind::PAGE + offset_in(v)
    }
}

// The page, 32 bits, and the offset, 16 bits.
fn page_in(v: u64) -> usize
    ensures { result ≡ page_in v }
{
    ((v >> 24) % (1 << 32)) as usize
}

fn offset_in(v: u64) -> usize
    ensures { result ≡ offset_in v }
{
    ((v >> 8) % (1 << 16)) as usize
}

// Whether the top byte is that of pointers and the low byte is zero.
#[tactic(auto, unfolding(crate::specs::Pointer::well_formed))]
fn well_formed(v: u64) -> bool
    ensures { result ≡ well_formed v }
{
    (v >> 56 == TOP) & (v % (1 << 8) == 0)
}

// Whether an entry begins at this offset of its page: not in the header, between entries, or behind the last.
#[tactic(auto, using(crate::proofs::PointerLaws::at_entry_header, crate::proofs::PointerLaws::at_entry_behind))]
fn at_entry(offset: usize) -> bool
    ensures { result ≡ at_entry undo_kind.size undo_kind.count offset }
{
    if offset < Kind::HEADER {
        return false;
    }
    let o = offset - Kind::HEADER;
    (o < Kind::UNDO.count * Kind::UNDO.size) & (o % Kind::UNDO.size == 0)
}
