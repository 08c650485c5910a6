// How many records of a page are in use, and what touching a page writes ("01, The page").
ghost use Rattle.std.specs.Prelude.{◌≡◌, ◌+◌, ◌*◌, ◌≤◌, length};
ghost use Rattle.kind.specs.Kind.{page_size};
ghost use Rattle.page.specs.Count.{Roomy, items_in, counted, touched};

use kind::Kind;
use little::Number;

// The records of a page of kind k that are in use.
#[tactic(auto, using(ground::proofs::Ranges::count_more, ground::proofs::Ranges::count_same), unfolding(crate::specs::Count::in_use, crate::specs::Count::items_in, ground::specs::Range::count_below))]
pub fn items(page: &[u8], k: Kind) -> u16
    requires { (length page.now ≡ page_size) × Roomy k }
    ensures { result ≡ items_in k page.now }
{
    let mut n = 0;
    for i in 0..k.count {
        if u64::get(page, Kind::HEADER + i * k.size) != 0 {
            n += 1;
        }
    }
    n
}

// Page p with its item_count counted anew, as sweeping leaves a page.
#[tactic(auto, using(crate::proofs::Counts::counted_store))]
pub fn recount(s: &mut [u8], p: usize, k: Kind)
    requires { (p * page_size + page_size ≤ length s.old) × Roomy k }
    ensures { s.new ≡ counted k p s.old }
{
    let at = p * Kind::PAGE;
    let end = at + Kind::PAGE;
    let n = items(&s[at..end], k);
    u16::put(s, at + 38, n);
}

// Page p touched by session txn.
#[tactic(auto, unfolding(crate::specs::Count::touched))]
pub fn touch(s: &mut [u8], p: usize, k: Kind, txn: u64)
    requires { (p * page_size + page_size ≤ length s.old) × Roomy k }
    ensures { s.new ≡ touched k p txn s.old }
{
    recount(s, p, k);
    crate::header::put_txn_id(s, p, txn);
}
