// Writes the examples of CRC32C that RFC 3720, B.4 publishes: a line for each, of its name, a tab, and the checksum of its
// bytes as the RFC prints it ("01, The page": "Check CRC32C against RFC 3720's published examples"). Each is worked by itself and abreast
// with others, at once and in two parts, whose lengths are no multiples of four (02, T-02: "Every value stays the same").
#![tactic(auto)]

ghost use Rattle.std.specs.Prelude.{◌≡◌, [], ◌∷◌, ◌/◌, ◌%◌, ◌≤◌, length};

use std::io;

// The bytes of a checksum as the RFC prints them, the least significant first.
fn printed(c: u32) -> [u8; 4]
    ensures { result ≡ (c % 256) ∷ (c / 256 % 256) ∷ (c / 65536 % 256) ∷ (c / 16777216) ∷ [] }
{
    c.to_le_bytes()
}

// Writes a line: an example's name, how it was worked, and its checksum.
fn write_line(rt: &impl Print, name: &str, how: &str, c: u32) -> io::Result<()> {
    let [first, second, third, fourth] = printed(c);
    println!(rt; "{name}{how}\t{first:02x} {second:02x} {third:02x} {fourth:02x}")
}

// Writes an example by itself.
fn write_alone(rt: &impl Print, name: &str, s: &[u8]) -> io::Result<()>
    requires { 5 ≤ length s.now }
{
    write_line(rt, name, "", crc::crc32c(s))?;
    let c = crc::crc32c(&s[0..5]);
    write_line(
        rt,
        name,
        ", as 5 bytes and the rest",
        crc::crc32c_more(c, &s[5..]),
    )
}

// Writes an example abreast with itself.
fn write_same(rt: &impl Print, name: &str, s: &[u8]) -> io::Result<()> {
    let hows = [
        ", abreast, first of four",
        ", abreast, second",
        ", abreast, third",
        ", abreast, fourth",
    ];
    for (how, &sum) in hows.iter().zip(&crc::crc32c_four([s; 4])) {
        write_line(rt, name, how, sum)?;
    }
    Ok(())
}

// Writes the four checksums of the RFC's examples of 32 bytes.
fn write_four(rt: &impl Print, how: &str, sums: [u32; 4]) -> io::Result<()> {
    let names = [
        "32 bytes of zeroes",
        "32 bytes of ones",
        "32 bytes of incrementing 00..1f",
        "32 bytes of decrementing 1f..00",
    ];
    for (name, &sum) in names.iter().zip(&sums) {
        write_line(rt, name, how, sum)?;
    }
    Ok(())
}

// Writes those examples abreast.
fn write_abreast<'a>(rt: &impl Print, runs: [&'a [u8; 32]; 4]) -> io::Result<()> {
    write_four(rt, ", abreast", crc::crc32c_four(runs.map(|r| r as &[u8])))?;
    let c = crc::crc32c_four(runs.map(|r| &r[0..5]));
    let sums = crc::crc32c_four_more(c, runs.map(|r| &r[5..]));
    write_four(rt, ", abreast, as 5 bytes and the rest", sums)
}

// The examples, each under the RFC's own name for it.
fn main(rt: HostRuntime) -> io::Result<()> {
    let zeros = &[0; 32];
    let ones = &[0xFF; 32];
    let rising = b"\x00\x01\x02\x03\x04\x05\x06\x07\x08\x09\x0a\x0b\x0c\x0d\x0e\x0f\
                   \x10\x11\x12\x13\x14\x15\x16\x17\x18\x19\x1a\x1b\x1c\x1d\x1e\x1f";
    let falling = b"\x1f\x1e\x1d\x1c\x1b\x1a\x19\x18\x17\x16\x15\x14\x13\x12\x11\x10\
                    \x0f\x0e\x0d\x0c\x0b\x0a\x09\x08\x07\x06\x05\x04\x03\x02\x01\x00";
    write_alone(&rt, "32 bytes of zeroes", zeros)?;
    write_alone(&rt, "32 bytes of ones", ones)?;
    write_alone(&rt, "32 bytes of incrementing 00..1f", rising)?;
    write_alone(&rt, "32 bytes of decrementing 1f..00", falling)?;
    let command = b"\x01\xc0\x00\x00\x00\x00\x00\x00\x00\x00\x00\x00\x00\x00\x00\x00\
                    \x14\x00\x00\x00\x00\x00\x04\x00\x00\x00\x00\x14\x00\x00\x00\x18\
                    \x28\x00\x00\x00\x00\x00\x00\x00\x02\x00\x00\x00\x00\x00\x00\x00";
    write_alone(&rt, "An iSCSI - SCSI Read (10) Command PDU", command)?;
    write_same(&rt, "An iSCSI - SCSI Read (10) Command PDU", command)?;
    write_abreast(&rt, [zeros, ones, rising, falling])
}
