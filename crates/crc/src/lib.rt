// CRC32C (Castagnoli), the checksum of a page ("01, The page"), worked a byte at a time from a table (02, T-02): of one run of
// bytes, where each look at the table waits for the one before it, or of four abreast, a byte of each in turn, which do not wait for each other.
#![tactic(auto)]

mod table;

ghost use Rattle.std.specs.Prelude.{◌≡◌, map};
ghost use Rattle.std.specs.Int.Bits.{bit_xor};
ghost use Rattle.crc.specs.Crc.{filled, byte_step, crc_more, crc_of};
ghost use Rattle.crc.specs.Table.{step_table};
ghost use Rattle.crc.specs.Abreast.{OneLength, run_four, crc_four_more, crc_four};

// 32 digits 1.
const FILLED: u32 = 0xFFFF_FFFF;

// The register after one byte, whose lowest digit goes first.
fn byte(t: &[u32; 256], c: u32, b: u8) -> u32
    requires { t.now ≡ step_table }
    ensures { result ≡ byte_step c b }
{
    t[usize::from((c % 256) as u8 ^ b)] ^ (c >> 8)
}

// The checksum `crc` of what went before, carried on over the bytes of `s`.
pub fn crc32c_more(crc: u32, s: &[u8]) -> u32
    ensures { result ≡ crc_more crc s.now }
{
    let t = table::of_bytes();
    s.iter().fold(crc ^ FILLED, |c, &b| byte(t, c, b)) ^ FILLED
}

// The checksum of the bytes of `s`. That of nothing, from which it is carried on, is 0.
pub fn crc32c(s: &[u8]) -> u32
    ensures { result ≡ crc_of s.now }
{
    crc32c_more(0, s)
}

// The registers from which four checksums are carried on, and the checksums that four registers have come to.
fn turned(four: [u32; 4]) -> [u32; 4]
    ensures { result ≡ map (λ x. bit_xor x filled) four }
{
    four.map(|x| x ^ FILLED)
}

// The registers after the bytes of four runs, a byte of each in turn. In an array, of four or of any number of them, the compiler would make
// one vector of the registers, and take each out of it for its look at the table: 1.8 times as long. So they come one by one, into a function
// of its own, which is no twin of that for one run. A `zip` of the runs takes 2 in 100 longer than their indices.
#[inline(never)]
fn run_four<'a>(mut a: u32, mut b: u32, mut c: u32, mut d: u32, runs: [&'a [u8]; 4]) -> [u32; 4]
    requires { OneLength (map (λ r. r.now) runs) }
    ensures { result ≡ run_four a b c d (map (λ r. r.now) runs.entry) }
{
    let t = table::of_bytes();
    let [one, two, three, four] = runs;
    for k in 0..one.len() {
        a = byte(t, a, one[k]);
        b = byte(t, b, two[k]);
        c = byte(t, c, three[k]);
        d = byte(t, d, four[k]);
    }
    [a, b, c, d]
}

// The checksums of what went before, each carried on over the bytes of its run.
pub fn crc32c_four_more<'a>(crcs: [u32; 4], runs: [&'a [u8]; 4]) -> [u32; 4]
    requires { OneLength (map (λ r. r.now) runs) }
    ensures { result ≡ crc_four_more crcs (map (λ r. r.now) runs.entry) }
{
    let [a, b, c, d] = turned(crcs);
    turned(run_four(a, b, c, d, runs))
}

// The checksums of four runs of bytes of one length, likewise from nothing.
pub fn crc32c_four<'a>(runs: [&'a [u8]; 4]) -> [u32; 4]
    requires { OneLength (map (λ r. r.now) runs) }
    ensures { result ≡ crc_four (map (λ r. r.now) runs.entry) }
{
    crc32c_four_more([0; 4], runs)
}
