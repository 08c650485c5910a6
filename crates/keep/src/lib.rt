// Format, seal and open: the calls that keep a store between its days ("01, The page", "01, When the desk says no"). The three areas are lent
// apart, as C lends them: a call writes some of them and only reads others.
#![tactic(auto)]

ghost use Rattle.std.specs.Prelude.{◌≡◌, ◌+◌, ◌*◌, ◌<◌, ◌≤◌, length};
ghost use Rattle.ground.specs.Does.{Does};
ghost use Rattle.answer.specs.Code.{number_of};
ghost use Rattle.words.specs.Words.{desk_in};
ghost use Rattle.kind.specs.Kind.{page_size, pages};
ghost use Rattle.page.specs.Count.{Roomy};
ghost use Rattle.kind.specs.Areas.{areas};
ghost use Rattle.status.specs.Status.{last_number};
ghost use Rattle.whole.specs.Abreast.{right_at};
ghost use Rattle.keep.specs.Whole.{fresh_area, sealed_area, area_right, highest, ended, all_ended, store_right};
ghost use Rattle.keep.specs.Keep.{said, format_rule, seal_rule, open_rule};

use answer::Refusal;
use desk::Desk;
use kind::Kind;
use status::Status;
use words::Words;

// Writes every page of an area as a fresh one.
fn format_area(s: &mut [u8], k: Kind)
    requires { (length s.old ≡ pages s.old * page_size) × (pages s.old ≤ 65536) }
    ensures { s.new ≡ fresh_area k (pages s.old) }
{
    for p in 0..kind::pages(s) {
        whole::blank_page(s, p, k);
    }
    seal_area(s);
}

// Writes the three areas as an empty store, and answers its desk.
#[tactic(auto, using(crate::proofs::Calls::format_1, crate::proofs::Calls::format_0, kind::proofs::Lengths::all_lent), unfolding(crate::specs::Keep::formatted))]
pub fn format(data: &mut [u8], undo: &mut [u8], status: &mut [u8]) -> Result<Desk, Refusal>
    ensures { Does (format_rule (areas «data».old undo.old status.old)) (said result) (areas «data».new undo.new status.new) }
{
    if !kind::lengths_ok(data.len(), undo.len(), status.len()) {
        return Err(Refusal::BadLength);
    }
    format_area(data, Kind::DATA);
    format_area(undo, Kind::UNDO);
    format_area(status, Kind::STATUS);
    Ok(Desk::fresh(Desk::FIRST_NUMBER))
}

// Writes the checksum of every page of an area, of four pages at once where so many are left.
fn seal_area(s: &mut [u8])
    ensures { s.new ≡ sealed_area (pages s.old) s.old }
{
    let n = kind::pages(s);
    let fours = n / 4;
    for q in 0..fours {
        whole::seal_four(s, 4 * q);
    }
    for p in 4 * fours..n {
        whole::seal_page(s, p);
    }
}

// Writes the checksum of every page, once no session is open.
#[tactic(auto, using(crate::proofs::Calls::seal_1, crate::proofs::Calls::seal_2, crate::proofs::Calls::seal_15, crate::proofs::Calls::seal_0), unfolding(crate::specs::Keep::sealed))]
pub fn seal(
    data: &mut [u8],
    undo: &mut [u8],
    status: &mut [u8],
    desk: &Words,
) -> Result<(), Refusal>
    ensures { Does (seal_rule (areas «data».old undo.old status.old) (desk_in desk.now)) (number_of result) (areas «data».new undo.new status.new) }
{
    if !kind::lengths_ok(data.len(), undo.len(), status.len()) {
        return Err(Refusal::BadLength);
    }
    if !words::is_sound(desk) {
        return Err(Refusal::Unsound);
    }
    if words::open_count(desk) != 0 {
        return Err(Refusal::StillOpen);
    }
    seal_area(data);
    seal_area(undo);
    seal_area(status);
    Ok(())
}

// Whether page p of an area of kind k is right.
#[tactic(auto, using(page::proofs::Headers::page_at_lent))]
fn page_right(s: &[u8], p: usize, k: Kind) -> bool
    requires { (p * page_size + page_size ≤ length s.now) × (p < 65536) × Roomy k }
    ensures { result ≡ right_at k s.now p }
{
    let at = p * Kind::PAGE;
    let end = at + Kind::PAGE;
    whole::is_right(&s[at..end], (p + 1) as u32, k)
}

// Whether every page of an area of kind k is right, four pages at once where so many are left.
fn area_right(s: &[u8], k: Kind) -> bool
    requires { (pages s.now ≤ 65536) × Roomy k }
    ensures { result ≡ area_right k s.now }
{
    let n = kind::pages(s);
    let fours = n / 4;
    (0..fours).all(|q| whole::four_right(s, 4 * q, k))
        && (4 * fours..n).all(|p| page_right(s, p, k))
}

// Whether a status is that of a session that has ended.
fn has_ended(v: Status) -> bool
    ensures { result ≡ ended v }
{
    matches!(v, Status::Committed | Status::Withdrawn)
}

// Whether every number from 1 to the highest has ended.
fn all_ended(status: &[u8], highest: usize) -> bool
    requires { (length status.now ≡ page_size) × (highest ≤ last_number) }
    ensures { result ≡ all_ended highest status.now }
{
    (0..highest).all(|i| has_ended(status::status_at(status, i + 1)))
}

// Whether the pages and the numbers up to the highest are right.
#[tactic(auto, using(crate::proofs::Pages::store_right_high, crate::proofs::Pages::store_right_low))]
fn store_right(data: &[u8], undo: &[u8], status: &[u8], top: u64) -> bool
    requires { (pages «data».now ≤ 65536) × (pages undo.now ≤ 65536) × (length status.now ≡ page_size) × (top ≡ highest status.now) }
    ensures { result ≡ store_right (areas «data».now undo.now status.now) }
{
    if Status::LAST_NUMBER < top {
        return false;
    }
    area_right(data, Kind::DATA)
        & area_right(undo, Kind::UNDO)
        & area_right(status, Kind::STATUS)
        & all_ended(status, top as usize)
}

// Takes a sealed store up again: a desk without sessions, or the refusal.
#[tactic(auto, using(crate::proofs::Calls::open_1, crate::proofs::Calls::open_3, crate::proofs::Calls::open_0, crate::proofs::Pages::highest_store_right, kind::proofs::Lengths::all_lent), unfolding(crate::specs::Whole::highest))]
pub fn open(data: &[u8], undo: &[u8], status: &[u8]) -> Result<Desk, Refusal>
    ensures { said result ≡ open_rule (areas «data».now undo.now status.now) }
{
    if !kind::lengths_ok(data.len(), undo.len(), status.len()) {
        return Err(Refusal::BadLength);
    }
    let top = page::header::txn_id(status, 0);
    if !store_right(data, undo, status, top) {
        return Err(Refusal::BadPages);
    }
    Ok(Desk::fresh((top + 1) as u32))
}
