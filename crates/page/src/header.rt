// The header field that calls read or write alone ("01, The page": "txn_id 8,8"). The checksum is written in `whole`, and item_count
// in `count`, by what they are made of.
ghost use Rattle.std.specs.Prelude.{◌≡◌, ◌+◌, ◌*◌, ◌≤◌, length};
ghost use Rattle.kind.specs.Kind.{page_size};
ghost use Rattle.page.specs.Header.{page_at, txn_id, field_in, put_field};

use kind::Kind;
use little::Number;

// The txn_id of page p: the session that touched it last, and on the status page "the highest number handed out".
pub fn txn_id(s: &[u8], p: usize) -> u64
    requires { p * page_size + page_size ≤ length s.now }
    ensures { result ≡ field_in txn_id (page_at p s.now) }
{
    u64::get(s, p * Kind::PAGE + 8)
}

// Writes the txn_id of page p, and nothing else.
#[tactic(auto, unfolding(crate::specs::Header::put_field))]
pub fn put_txn_id(s: &mut [u8], p: usize, txn: u64)
    requires { p * page_size + page_size ≤ length s.old }
    ensures { s.new ≡ put_field txn_id p txn s.old }
{
    u64::put(s, p * Kind::PAGE + 8, txn);
}
