// Whole pages: the checksum, the check of a header, and a page as format and seal write it ("01, The page"); and four pages at once, whose
// checksums are worked abreast (02, T-02).
#![tactic(auto)]

ghost use Rattle.std.specs.Prelude.{◌≡◌, ◌+◌, ◌*◌, ◌<◌, ◌≤◌, ◌^◌, length};
ghost use Rattle.std.proofs.lemmas.List.Edits.{sets};
ghost use Rattle.kind.specs.Kind.{page_size};
ghost use Rattle.little.specs.Little.{part};
ghost use Rattle.crc.specs.Crc.{crc_of};
ghost use Rattle.page.specs.Header.{page_at, checksum, put_field};
ghost use Rattle.page.specs.Count.{Roomy};
ghost use Rattle.whole.specs.Whole.{checksum_of, start_of, page_right, sealed_page, blank_page};
ghost use Rattle.whole.specs.Abreast.{starts_from, checksums_from, sealed_four, right_at, four_right};

use kind::Kind;
use little::Number;

// What stands before the checksum of page p.
fn front(s: &[u8], p: usize) -> &[u8]
    requires { p * page_size + page_size ≤ length s.now }
    ensures { (result.now ≡ part 0 20 (page_at p s.now)) × (length result.now ≡ 20) }
{
    let at = p * Kind::PAGE;
    let end = at + 20;
    &s[at..end]
}

// What stands behind it.
fn rest(s: &[u8], p: usize) -> &[u8]
    requires { p * page_size + page_size ≤ length s.now }
    ensures { (result.now ≡ part 24 8168 (page_at p s.now)) × (length result.now ≡ 8168) }
{
    let at = p * Kind::PAGE + 24;
    let end = at + 8168;
    &s[at..end]
}

// The checksum of what page p begins with: what stands before its own, and four zeros for that (02, T-03). No page is copied and no field
// cleared for it.
fn start(s: &[u8], p: usize) -> u32
    requires { p * page_size + page_size ≤ length s.now }
    ensures { result ≡ crc_of (start_of (page_at p s.now)) }
{
    let c = crc::crc32c(front(s, p));
    crc::crc32c_more(c, &[0; 4])
}

// The same of pages p to p + 3, worked abreast.
fn starts(s: &[u8], p: usize) -> [u32; 4]
    requires { p * page_size + 4 * page_size ≤ length s.now }
    ensures { result ≡ starts_from p s.now }
{
    let c = crc::crc32c_four([
        front(s, p),
        front(s, p + 1),
        front(s, p + 2),
        front(s, p + 3),
    ]);
    crc::crc32c_four_more(c, [&[0; 4]; 4])
}

// The checksum of a page.
pub fn checksum(page: &[u8]) -> u32
    requires { length page.now ≡ page_size }
    ensures { result ≡ checksum_of page.now }
{
    crc::crc32c_more(start(page, 0), rest(page, 0))
}

// The checksums of pages p to p + 3, worked abreast.
fn checksums(s: &[u8], p: usize) -> [u32; 4]
    requires { p * page_size + 4 * page_size ≤ length s.now }
    ensures { result ≡ checksums_from p s.now }
{
    crc::crc32c_four_more(
        starts(s, p),
        [rest(s, p), rest(s, p + 1), rest(s, p + 2), rest(s, p + 3)],
    )
}

// Whether no header field but txn_id is wrong in page number id of kind k, whose checksum should be `sum`.
fn right_with(page: &[u8], id: u32, k: Kind, sum: u32) -> bool
    requires { (length page.now ≡ page_size) × Roomy k × (sum ≡ checksum_of page.now) }
    ensures { result ≡ page_right k id page.now }
{
    let items = page::count::items(page, k);
    // `&`, since the proof over thirteen `&&`, each a branch that joins the others, doesn't close.
    (u64::get(page, 0) == 0)
        & (u32::get(page, 16) == id)
        & (u32::get(page, 20) == sum)
        & (u32::get(page, 24) == 0)
        & (u32::get(page, 28) == 0)
        & (u32::get(page, 32) == 0)
        & (u16::get(page, 36) == k.free)
        & (u16::get(page, 38) == items)
        & (u16::get(page, 40) == 0)
        & (u16::get(page, 42) == 0)
        & (u8::get(page, 44) == k.code)
        & (u8::get(page, 45) == k.engine)
        & (u8::get(page, 46) == 0)
        & (u8::get(page, 47) == Kind::VERSION)
}

// Whether no header field but txn_id is wrong in page number id of kind k.
pub fn is_right(page: &[u8], id: u32, k: Kind) -> bool
    requires { (length page.now ≡ page_size) × Roomy k }
    ensures { result ≡ page_right k id page.now }
{
    let sum = checksum(page);
    right_with(page, id, k, sum)
}

// The same of page p of an area, whose checksum should be `sum`.
fn page_right(s: &[u8], p: usize, k: Kind, sum: u32) -> bool
    requires { (p * page_size + page_size ≤ length s.now) × (p < 2 ^ 31) × Roomy k × (sum ≡ checksum_of (page_at p s.now)) }
    ensures { result ≡ right_at k s.now p }
{
    let at = p * Kind::PAGE;
    let end = at + Kind::PAGE;
    right_with(&s[at..end], (p + 1) as u32, k, sum)
}

// Whether pages p to p + 3 of an area of kind k are right.
pub fn four_right(s: &[u8], p: usize, k: Kind) -> bool
    requires { (p * page_size + 4 * page_size ≤ length s.now) × (p < 2 ^ 30) × Roomy k }
    ensures { result ≡ four_right k s.now p }
{
    let [first, second, third, fourth] = checksums(s, p);
    page_right(s, p, k, first)
        && page_right(s, p + 1, k, second)
        && page_right(s, p + 2, k, third)
        && page_right(s, p + 3, k, fourth)
}

// Writes the checksum of page p, and nothing else.
fn put_checksum(s: &mut [u8], p: usize, sum: u32)
    requires { p * page_size + page_size ≤ length s.old }
    ensures { s.new ≡ put_field checksum p sum s.old }
{
    u32::put(s, p * Kind::PAGE + 20, sum);
}

// Writes the checksum of page p.
pub fn seal_page(s: &mut [u8], p: usize)
    requires { p * page_size + page_size ≤ length s.old }
    ensures { s.new ≡ sealed_page p s.old }
{
    let at = p * Kind::PAGE;
    let end = at + Kind::PAGE;
    let sum = checksum(&s[at..end]);
    put_checksum(s, p, sum);
}

// Writes the checksums of pages p to p + 3.
pub fn seal_four(s: &mut [u8], p: usize)
    requires { p * page_size + 4 * page_size ≤ length s.old }
    ensures { s.new ≡ sealed_four p s.old }
{
    for (i, &sum) in checksums(s, p).iter().enumerate() {
        put_checksum(s, p + i, sum);
    }
}

// Writes page p as format does, but for its checksum.
pub fn blank_page(s: &mut [u8], p: usize, k: Kind)
    requires { (p * page_size + page_size ≤ length s.old) × (p < 2 ^ 31) }
    ensures { s.new ≡ sets s.old (p * page_size) (blank_page k (p + 1)) }
{
    let at = p * Kind::PAGE;
    little::put_zeros(s, at, Kind::PAGE);
    u32::put(s, at + 16, (p + 1) as u32);
    u16::put(s, at + 36, k.free);
    u8::put(s, at + 44, k.code);
    u8::put(s, at + 45, k.engine);
    u8::put(s, at + 47, Kind::VERSION);
}
