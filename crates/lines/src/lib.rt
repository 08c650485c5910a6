// A text parted by a byte, and the line reader ("01, The script and one whole run"): "fields parted by one tab, newline after each line"; "The line
// reader keeps hold of the lent text and its place in it."
#![tactic(auto)]

ghost use Rattle.std.specs.Prelude.{◌≡◌, ◌+◌, ◌≤◌, length, drop};
ghost use Rattle.lines.specs.Span.{before};
ghost use Rattle.lines.specs.Lines.{line_at, read_from};

// What parts the fields of a line, and what ends one.
pub const TAB: u8 = 9;

pub const NEWLINE: u8 = 10;

// A line of a text: where it begins and ends, whether a newline ends it or the text does, and the place behind it.
// An unended line has an end and a place behind it too, so that no Option could say it.
#[derive(Clone, Copy)]
pub struct Line {
    pub start: usize,
    pub end: usize,
    pub ended: bool,
    pub behind: usize,
}

// The lent text, and a place in it. No `Iterator`: behind the last newline stands a line too, an unended one, so there is always a next.
#[derive(Drop)]
pub struct Reader<'a> {
    pub text: &'a [u8],
    pub at: usize,
}

// Where the next b stands, from a place on; at the text's end, where a field ends too, if there is none.
pub fn find(s: &[u8], from: usize, b: u8) -> usize
    ensures { result ≡ from + length (before b (drop from s.now)) }
{
    match s.get(from..) {
        Some(rest) => from + before(rest, b),
        None => from,
    }
}

// How many bytes stand before the first b.
fn before(s: &[u8], b: u8) -> usize
    ensures { result ≡ length (before b s.now) }
{
    s.iter().position(|&x| x == b).unwrap_or(s.len())
}

// The work: the line that begins at a place of a text.
#[tactic(auto, unfolding(crate::specs::Lines::line_at))]
pub fn line_at(text: &[u8], at: usize) -> Line
    ensures { result ≡ line_at text.now at }
{
    let end = find(text, at, NEWLINE);
    let ended = end < text.len();
    let behind = if ended { end + 1 } else { end };
    Line {
        start: at,
        end,
        ended,
        behind,
    }
}

impl<'a> Reader<'a> {
    // A reader of a text, at its start.
    pub fn new(text: &'a [u8]) -> Reader<'a>
        ensures { (result.text ≡ text.entry) × (result.at ≡ 0) }
    {
        Reader { text, at: 0 }
    }

    // The reader's line; the reader moves on behind it.
    pub fn next_line(&mut self) -> Line
        ensures { (result, self.new) ≡ read_from self.old }
    {
        let line = line_at(self.text, self.at);
        self.at = line.behind;
        line
    }
}
