// The kinds of page ("01, The page", the table), and the lengths that areas may have.
#![tactic(auto)]

ghost use Rattle.std.specs.Prelude.{◌≡◌, ◌<◌, ◌^◌};
ghost use Rattle.kind.specs.Kind.{page_size, pages, rows, entries, lengths_ok, length_ok};
ghost use Rattle.kind.specs.Place.{place_of};

// What the paper's table says of a kind. Of any kind that it is given, a function asks that its records lie in their page
// (`page`'s `Roomy`): kept in a ghost field here, a proof of that would stand in each kind of the definitions.
#[derive(Clone, Copy)]
pub struct Kind {
    // page_type, engine_tag and free_space_offset of such a page
    pub code: u8,
    pub engine: u8,
    pub free: u16,
    // the size of a record, and the records to a page
    pub size: usize,
    pub count: usize,
    // the pages that may be lent: 1 to most
    pub most: usize,
}

impl Kind {
    pub const DATA: Kind = Kind {
        code: 0x10,
        engine: 1,
        free: 8176,
        size: 64,
        count: 127,
        most: 64,
    };

    pub const UNDO: Kind = Kind {
        code: 0x51,
        engine: 0,
        free: 8128,
        size: 80,
        count: 101,
        most: 64,
    };

    pub const STATUS: Kind = Kind {
        code: 0x00,
        engine: 0,
        free: 8192,
        size: 0,
        count: 0,
        most: 1,
    };
    // The size of a page, where its records begin, and its format_version.
    pub const PAGE: usize = 8192;

    pub const HEADER: usize = 48;

    pub const VERSION: u8 = 1;

    // Where record r of an area of this kind begins: "Slots and entries start at offset 48".
    pub fn place(self, r: usize) -> usize
        requires { (0 < self.count) × (place_of page_size self.size self.count r < 2 ^ 63) }
        ensures { result ≡ place_of page_size self.size self.count r }
    {
        r / self.count * Kind::PAGE + (Kind::HEADER + r % self.count * self.size)
    }
}

// How many pages an area has, how many rows a data area, and how many entries an undo area. The paper has a word for each of the last
// two; one function over a kind would be no shorter.
pub fn pages(s: &[u8]) -> usize
    ensures { result ≡ pages s.now }
{
    s.len() / Kind::PAGE
}

pub fn rows(data: &[u8]) -> usize
    ensures { result ≡ rows «data».now }
{
    pages(data) * Kind::DATA.count
}

pub fn entries(undo: &[u8]) -> usize
    ensures { result ≡ entries undo.now }
{
    pages(undo) * Kind::UNDO.count
}

#[tactic(auto, unfolding(crate::specs::Kind::length_ok))]
fn length_ok(n: usize, most: usize) -> bool
    ensures { result ≡ length_ok most n }
{
    (n % Kind::PAGE == 0) & (1 <= n / Kind::PAGE) & (n / Kind::PAGE <= most)
}

// Whether the lengths of the three areas are allowed.
#[tactic(auto, unfolding(crate::specs::Kind::lengths_ok))]
pub fn lengths_ok(d: usize, u: usize, s: usize) -> bool
    ensures { result ≡ lengths_ok d u s }
{
    length_ok(d, Kind::DATA.most) & length_ok(u, Kind::UNDO.most) & length_ok(s, Kind::STATUS.most)
}
