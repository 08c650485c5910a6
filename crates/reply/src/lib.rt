// An answer as a line ("01, The script and one whole run"): "Answers: the code, and where it is 0 the fields". Each writes its line at a
// place of a lent buffer and answers where the line ends. Buffer and place stay two: a struct of both would be lent to write, and each clause
// would say its place before and after besides. The code is a number here, as the line says it.
#![tactic(auto)]

ghost use Rattle.std.specs.Prelude.{◌≡◌, [], ◌∷◌, ◌+◌, ◌≤◌, length};
ghost use Rattle.numeral.specs.Numeral.{numeral_of, hex_of};
ghost use Rattle.reply.specs.Reply.{longest, Says, answer_line, newline, tabbed};

// The longest answer: a code, a number, a body, two tabs and a newline.
pub const LONGEST: usize = 88;

// The code of a call that is done, the only one with fields.
const DONE: u32 = 0;

// Ends a line.
fn end(out: &mut [u8], at: usize) -> usize
    requires { at + 1 ≤ length out.old }
    ensures { Says newline at out.old result out.new }
{
    out[at] = lines::NEWLINE;
    at + 1
}

// A number behind a tab.
fn number(out: &mut [u8], at: usize, n: u64) -> usize
    requires { at + 21 ≤ length out.old }
    ensures { Says (tabbed (numeral_of n ∷ [])) at out.old result out.new }
{
    out[at] = lines::TAB;
    at + 1 + numeral::put_number(out, at + 1, n)
}

// A body behind a tab.
fn body_field(out: &mut [u8], at: usize, body: &[u8]) -> usize
    requires { (length body.now ≤ 32) × (at + 65 ≤ length out.old) }
    ensures { Says (tabbed (hex_of body.now ∷ [])) at out.old result out.new }
{
    out[at] = lines::TAB;
    numeral::put_body(out, at + 1, body);
    at + 1 + 2 * body.len()
}

// One function for each number of fields: one over a list of them needs an enum that holds the body, a loop with its invariant, and a bound on how
// many there are, which no caller has to show now.

// The code alone.
pub fn plain(out: &mut [u8], at: usize, code: u32) -> usize
    requires { at + longest ≤ length out.old }
    ensures { Says (answer_line code []) at out.old result out.new }
{
    let e = at + numeral::put_number(out, at, code as u64);
    end(out, e)
}

// The code, and where it is 0 one number.
pub fn numbered(out: &mut [u8], at: usize, code: u32, n: u64) -> usize
    requires { at + longest ≤ length out.old }
    ensures { Says (answer_line code (numeral_of n ∷ [])) at out.old result out.new }
{
    if code != DONE {
        return plain(out, at, code);
    }
    out[at] = b'0';
    let e = number(out, at + 1, n);
    end(out, e)
}

// The code, and where it is 0 two numbers.
pub fn paired(out: &mut [u8], at: usize, code: u32, n: u64, m: u64) -> usize
    requires { at + longest ≤ length out.old }
    ensures { Says (answer_line code (numeral_of n ∷ numeral_of m ∷ [])) at out.old result out.new }
{
    if code != DONE {
        return plain(out, at, code);
    }
    out[at] = b'0';
    let mid = number(out, at + 1, n);
    let last = number(out, mid, m);
    end(out, last)
}

// The code, and where it is 0 a number and a body.
pub fn bodied(out: &mut [u8], at: usize, code: u32, n: u64, body: &[u8]) -> usize
    requires { (length body.now ≤ 32) × (at + longest ≤ length out.old) }
    ensures { Says (answer_line code (numeral_of n ∷ hex_of body.now ∷ [])) at out.old result out.new }
{
    if code != DONE {
        return plain(out, at, code);
    }
    out[at] = b'0';
    let e = number(out, at + 1, n);
    let f = body_field(out, e, body);
    end(out, f)
}
