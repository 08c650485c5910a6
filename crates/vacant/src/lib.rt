// The lowest record of an area that is not in use: "the lowest empty slot", "the lowest free entry" ("01, Writes, withdrawal,
// sweep"). One search for both: a slot's create and an entry's writer are the first 8 bytes of the record.
#![tactic(auto)]

ghost use Rattle.std.specs.Prelude.{◌≡◌, ◌*◌, ◌≤◌, length};
ghost use Rattle.ground.specs.Range.{found_below};
ghost use Rattle.kind.specs.Kind.{page_size, pages, rows, entries};
ghost use Rattle.page.specs.Count.{Roomy};
ghost use Rattle.vacant.specs.Vacant.{lowest_in, lowest, lowest_empty, lowest_free};

use kind::Kind;
use little::Number;

// The lowest record of a page of kind k that is not in use.
fn lowest_in(page: &[u8], k: Kind) -> Option<usize>
    requires { (length page.now ≡ page_size) × Roomy k }
    ensures { result ≡ found_below k.count (lowest_in k page.now) }
{
    for i in 0..k.count {
        let free = u64::get(page, Kind::HEADER + i * k.size) == 0;
        if free {
            return Some(i);
        }
    }
    None
}

// The lowest record of an area of kind k that is not in use, lowest page first, then lowest place.
fn lowest_of(s: &[u8], k: Kind) -> Option<usize>
    requires { (pages s.now ≤ 65536) × Roomy k }
    ensures { result ≡ found_below (pages s.now * k.count) (lowest k s.now) }
{
    for p in 0..kind::pages(s) {
        let at = p * Kind::PAGE;
        let end = at + Kind::PAGE;
        if let Some(i) = lowest_in(&s[at..end], k) {
            return Some(p * k.count + i);
        }
    }
    None
}

// "the lowest empty slot".
pub fn lowest_empty(data: &[u8]) -> Option<usize>
    requires { pages «data».now ≤ 65536 }
    ensures { result ≡ found_below (rows «data».now) (lowest_empty «data».now) }
{
    lowest_of(data, Kind::DATA)
}

// "the lowest free entry".
pub fn lowest_free(undo: &[u8]) -> Option<usize>
    requires { pages undo.now ≤ 65536 }
    ensures { result ≡ found_below (entries undo.now) (lowest_free undo.now) }
{
    lowest_of(undo, Kind::UNDO)
}
