// Numbers and bodies as text ("01, The script and one whole run"): "Numbers are decimal without leading zeros, a body is 64 lower-case hex
// digits." Each direction is one definition on lists of bytes.
#![tactic(auto)]

ghost use Rattle.std.specs.Prelude.{◌≡◌, ◌+◌, ◌*◌, ◌<◌, ◌≤◌, length, SomeIff};
ghost use Rattle.std.proofs.lemmas.List.Edits.{sets};
ghost use Rattle.numeral.specs.Numeral.{number_in, begins, with_digit, nibble_of, byte_in, body_said, glyph_of, numeral_of, hex_of};

// The number that a field says: not empty, digits alone, no leading zero, at most 2^64 - 1.
pub fn read_number(field: &[u8]) -> Option<u64>
    ensures { result ≡ number_in field.now }
{
    if !begins(field) {
        return None;
    }
    let mut said = 0;
    for &b in field {
        said = with_digit(said, b)?;
    }
    Some(said)
}

// Whether a field begins as a number does: it is not empty, and no zero leads further digits.
fn begins(field: &[u8]) -> bool
    ensures { result ≡ begins field.now }
{
    !matches!(field, [] | [b'0', _, ..])
}

// What a number says with a digit behind it; none where the byte is no digit, or the number then above 2^64 - 1.
fn with_digit(said: u64, b: u8) -> Option<u64>
    ensures { result ≡ with_digit said b }
{
    match b {
        b'0'..=b'9' => said.checked_mul(10)?.checked_add((b - b'0') as u64),
        _ => None,
    }
}

// The body that a field says: 64 lower-case hex digits, two a byte.
pub fn read_body(field: &[u8]) -> Option<[u8; 32]>
    ensures { result ≡ body_said field.now }
{
    if field.len() != 64 {
        return None;
    }
    let mut body = [0; 32];
    let (digits, _) = field.as_chunks::<2>();
    for (i, &[high, low]) in digits.iter().enumerate() {
        body[i] = byte(high, low)?;
    }
    Some(body)
}

// The byte that two hex digits say; none where one of the two is none.
fn byte(high: u8, low: u8) -> Option<u8>
    ensures { result ≡ byte_in high low }
{
    Some(nibble(high)? * 16 + nibble(low)?)
}

// What a hex digit says, in lower case alone.
#[tactic(auto, unfolding(crate::specs::Numeral::nibble_of))]
fn nibble(b: u8) -> Option<u8>
    ensures { SomeIff result (nibble_of b < 16) (nibble_of b) }
{
    match b {
        b'0'..=b'9' => Some(b - b'0'),
        b'a'..=b'f' => Some(b - b'a' + 10),
        _ => None,
    }
}

// How many digits a number has.
fn places(v: u64) -> usize
    ensures { (result ≡ length (numeral_of v)) × (result ≤ 20) }
{
    match v.checked_ilog10() {
        Some(tens) => tens as usize + 1,
        None => 1,
    }
}

// Writes a number, and answers how many digits it took. Not by `write!`: it stands at a place of a lent buffer, whose other bytes stay.
pub fn put_number(out: &mut [u8], at: usize, v: u64) -> usize
    requires { at + 20 ≤ length out.old }
    ensures counts { result ≡ length (numeral_of v) }
    ensures leaves { out.new ≡ sets out.old at (numeral_of v) }
{
    let n = places(v);
    let mut rest = v;
    for i in (0..n).rev() {
        out[at + i] = b'0' + (rest % 10) as u8;
        rest /= 10;
    }
    n
}

// A hex digit.
#[tactic(auto, unfolding(crate::specs::Numeral::glyph_of))]
fn glyph(n: u8) -> u8
    requires { n ≤ 15 }
    ensures { result ≡ glyph_of n }
{
    if n < 10 { b'0' + n } else { b'a' + (n - 10) }
}

// Writes a body as hex digits, two a byte.
pub fn put_body(out: &mut [u8], at: usize, body: &[u8])
    requires { at + 2 * length body.now ≤ length out.old }
    ensures { out.new ≡ sets out.old at (hex_of body.now) }
{
    for (i, &b) in body.iter().enumerate() {
        out[at + 2 * i] = glyph(b / 16);
        out[at + 2 * i + 1] = glyph(b % 16);
    }
}
