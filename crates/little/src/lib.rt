// Numbers of 1, 2, 4 and 8 bytes in lent bytes, lowest byte first ("01, The page": all numbers are little-endian); the compiler makes
// one load or store of each. The laws over the width are in proofs/.
#![tactic(auto)]

ghost use Rattle.std.specs.Prelude.{◌≡◌, ℕ, ◌+◌, ◌≤◌, length, replicate};
ghost use Rattle.std.proofs.lemmas.List.Edits.{sets};
ghost use Rattle.little.specs.Little.{little, digits, part};

// A number that lies in `width` bytes, and its value.
pub trait Number: Copy {
    ghost width: { ℕ };

    ghost value: { Self → ℕ };

    // The number in the bytes of s from index at on.
    fn get(s: &[u8], at: usize) -> Self
        requires { at + width ≤ length s.now }
        ensures { value result ≡ little (part at width s.now) };

    // Stores the number v in the bytes of s from index at on.
    fn put(s: &mut [u8], at: usize, v: Self)
        requires { at + width ≤ length s.old }
        ensures { s.new ≡ sets s.old at (digits width (value v)) };
}

impl Number for u8 {
    ghost width = { 1 };

    ghost value = { λ n. n };

    fn get(s: &[u8], at: usize) -> u8 {
        s[at]
    }

    fn put(s: &mut [u8], at: usize, v: u8) {
        s[at] = v;
    }
}

impl Number for u16 {
    ghost width = { 2 };

    ghost value = { λ n. n };

    fn get(s: &[u8], at: usize) -> u16 {
        u16::from_le_bytes(bytes(s, at))
    }

    fn put(s: &mut [u8], at: usize, v: u16) {
        put_bytes(s, at, &v.to_le_bytes());
    }
}

impl Number for u32 {
    ghost width = { 4 };

    ghost value = { λ n. n };

    fn get(s: &[u8], at: usize) -> u32 {
        u32::from_le_bytes(bytes(s, at))
    }

    fn put(s: &mut [u8], at: usize, v: u32) {
        put_bytes(s, at, &v.to_le_bytes());
    }
}

impl Number for u64 {
    ghost width = { 8 };

    ghost value = { λ n. n };

    fn get(s: &[u8], at: usize) -> u64 {
        u64::from_le_bytes(bytes(s, at))
    }

    fn put(s: &mut [u8], at: usize, v: u64) {
        put_bytes(s, at, &v.to_le_bytes());
    }
}

// The N bytes from index at on.
fn bytes<const N: usize>(s: &[u8], at: usize) -> [u8; N]
    requires { at + N ≤ length s.now }
    ensures { result ≡ part at N s.now }
{
    let mut bytes = [0; N];
    bytes.copy_from_slice(&s[at..at + N]);
    bytes
}

// Copies all of b into s from index at on.
#[tactic(auto, using(crate::proofs::Parts::put_part))]
pub fn put_bytes(s: &mut [u8], at: usize, b: &[u8])
    requires { at + length b.now ≤ length s.old }
    ensures { s.new ≡ sets s.old at b.now }
{
    s[at..at + b.len()].copy_from_slice(b);
}

// Stores n zeros from index at on.
#[tactic(auto, using(crate::proofs::Parts::put_part, crate::proofs::Parts::put_zeros_part))]
pub fn put_zeros(s: &mut [u8], at: usize, n: usize)
    requires { at + n ≤ length s.old }
    ensures { s.new ≡ sets s.old at (replicate n 0) }
{
    s[at..at + n].fill(0);
}
