// The status of a session's number: two bits of the status page ("01, The page").
#![tactic(auto)]

ghost use Rattle.std.specs.Prelude.{◌≡◌, ◌<◌, ◌^◌, length};
ghost use Rattle.kind.specs.Kind.{page_size};
ghost use Rattle.status.specs.Status.{numbers_to_page, status_shift, put_bits_in, bits_of, status_of, status_at, put_status};

use kind::Kind;

#[derive(Clone, Copy, PartialEq, Eq)]
pub enum Status {
    // 00
    InWork,
    // 01
    Committed,
    // 10
    Withdrawn,
    // 11
    Reserved,
}

impl Status {
    // The highest number that has a status: "numbers above 32,575 are never committed".
    pub const LAST_NUMBER: u64 = 32575;
}

// The two bits of a status, and the status of two bits: 00 in work, 01 committed, 10 withdrawn, 11 reserved.
impl From<Status> for u8 {
    ghost from_gives = { λ status bits. (bits ≡ bits_of status) × (bits < 4) };

    fn from(status: Status) -> u8 {
        match status {
            Status::InWork => 0,
            Status::Committed => 1,
            Status::Withdrawn => 2,
            Status::Reserved => 3,
        }
    }
}

impl From<u8> for Status {
    ghost from_gives = { λ bits status. status ≡ status_of bits };

    fn from(bits: u8) -> Status {
        match bits {
            0 => Status::InWork,
            1 => Status::Committed,
            2 => Status::Withdrawn,
            _ => Status::Reserved,
        }
    }
}

// The lower of the two bits of number n in its byte.
#[tactic(auto, using(crate::proofs::StatusLaws::unit_byte))]
fn unit(n: usize) -> u8
    ensures { result ≡ 2 ^ status_shift n }
{
    1 << (n % 4 * 2)
}

// The byte b with the two bits of number n put to v; the bits of other numbers stay.
#[tactic(auto, using(crate::proofs::StatusLaws::put_bits_in_byte), unfolding(crate::specs::Status::put_bits_in))]
fn put_bits(b: u8, n: usize, v: u8) -> u8
    requires { v < 4 }
    ensures { result ≡ put_bits_in n v b }
{
    let low = unit(n);
    b % low + (v + 4 * (b / low / 4)) * low
}

// The status of number n: the two bits of byte 48 + n / 4, shifted by (n mod 4) × 2 ("01, The page").
#[tactic(auto, using(crate::proofs::StatusLaws::status_at_page))]
pub fn status_at(s: &[u8], n: usize) -> Status
    requires { (n < numbers_to_page page_size) × (length s.now ≡ page_size) }
    ensures { result ≡ status_at n s.now }
{
    Status::from((s[Kind::HEADER + n / 4] >> (n % 4 * 2)) % 4)
}

// Puts the status of number n to v; its neighbours and the header stay as they are.
#[tactic(auto, using(crate::proofs::StatusLaws::put_status_page))]
pub fn put_status(s: &mut [u8], n: usize, v: Status)
    requires { (n < numbers_to_page page_size) × (length s.old ≡ page_size) }
    ensures { s.new ≡ put_status n v s.old }
{
    let at = Kind::HEADER + n / 4;
    s[at] = put_bits(s[at], n, u8::from(v));
}
