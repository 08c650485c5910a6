// The columns of the desk ("01, Sessions and sight"): how many places they have, a list copied in, a column without some places, and
// the mark. A column is a list of numbers here; what makes it sound is said in the crate above.
#![tactic(auto)]

ghost use Rattle.std.specs.Prelude.{◌≡◌, ◌+◌, ◌≤◌, length, take};
ghost use Rattle.std.proofs.lemmas.List.Edits.{sets};
ghost use Rattle.columns.specs.Limits.{members, places};
ghost use Rattle.columns.specs.Columns.{without, smallest, mark_of};

// How far the columns reach, and what a statement may be. It has no values of its own: a name for the limits alone.
#[derive(Drop)]
pub struct Limits;

impl Limits {
    // "at most 16 open sessions", and of each "the numbers open when it began: at most 15"
    pub const SESSIONS: usize = 16;

    pub const MEMBERS: usize = 15;
    // the places of all lists together
    pub const PLACES: usize = Limits::SESSIONS * Limits::MEMBERS;
    // "its statement (0 to 65,535)"
    pub const LAST_STATEMENT: u32 = 65535;
    // the mark of a session that is spoiled ("02, T-07"); of all others it is 0
    pub const SPOILED: u32 = 1;
}

// A place for each session, and the lists of all of them. Every number of a desk is below 2^20, so that 32 bits hold it.
pub type Column = [u32; Limits::SESSIONS];

pub type Lists = [u32; Limits::PLACES];

// A desk, lent by its columns where they lie, so that what only reads it needs no copy.
#[derive(Clone, Copy)]
pub struct LentDesk<'a> {
    // The number that the next session gets.
    pub next: u32,
    pub numbers: &'a Column,
    pub statements: &'a Column,
    pub marks: &'a Column,
    pub lists: &'a Lists,
}

// Stores the first 15 numbers at `at`: "the numbers open when it began", and unused places behind them.
pub fn put_list(lists: &mut Lists, at: usize, numbers: &Column)
    requires { at + members ≤ places }
    ensures { lists.new ≡ sets lists.old at (take members numbers.now) }
{
    let end = at + Limits::MEMBERS;
    lists[at..end].copy_from_slice(&numbers[..Limits::MEMBERS]);
}

// Takes the w places from `at` on out of a column: later ones move up, and zeros stand behind ("unused places are zero").
pub fn pull_up(column: &mut [u32], at: usize, w: usize)
    requires { at + w ≤ length column.old }
    ensures { column.new ≡ without at w column.old }
{
    let behind = at + w;
    let kept = column.len() - w;
    column.copy_within(behind.., at);
    column[kept..].fill(0);
}

// The smallest of m and the used places.
fn least(m: u32, column: &[u32]) -> u32
    ensures { result ≡ smallest m column.now }
{
    column
        .iter()
        .copied()
        .filter(|number| *number != 0)
        .fold(m, u32::min)
}

// "The mark is the smallest among all open sessions' numbers and list members; with none open, the next number."
pub fn mark(next: u32, numbers: &[u32], lists: &[u32]) -> u32
    ensures { result ≡ mark_of next numbers.now lists.now }
{
    let oldest = least(next, numbers);
    least(oldest, lists)
}
