// The desk: the session record that goes into each call and comes back ("01, Sessions and sight"). It is columns, so that a
// check can be lent them without a copy. Unused places are zero; there is no count.
#![tactic(auto)]

ghost use Rattle.std.specs.Prelude.{◌≡◌, ◌<◌, ◌≤◌, get_or};
ghost use Rattle.columns.specs.Limits.{sessions, last_statement};
ghost use Rattle.places.specs.Open.{open_count};
ghost use Rattle.desk.specs.Desk.{last_next, fresh_desk};
ghost use Rattle.desk.specs.Sound.{sound_columns};
ghost use Rattle.desk.specs.Turns.{begun, moved, closed};

use columns::{Column, LentDesk, Limits, Lists};

#[derive(Clone, Copy)]
pub struct Desk {
    // The number that the next session gets.
    pub next: u32,
    // The open sessions' numbers, ascending, and the statement of each.
    pub numbers: Column,
    pub statements: Column,
    // 1 where the session is spoiled, else 0 ("02, T-07"). It is no part of the sweep's mark. It is a number and no bool, since the
    // words of the C interface say a desk too where they are not sound.
    pub marks: Column,
    // The numbers open when each began, ascending: 15 places a session.
    pub lists: Lists,
}

impl Desk {
    // "the first number and the first statement are named once with their type"
    pub const FIRST_NUMBER: u32 = 1;

    pub const FIRST_STATEMENT: u32 = 0;
    // "the next number (1 to 32,576)"
    pub const LAST_NEXT: u32 = 32576;

    // A desk without sessions.
    pub fn fresh(next: u32) -> Desk
        ensures { result ≡ fresh_desk next }
    {
        Desk {
            next,
            numbers: [0; Limits::SESSIONS],
            statements: [0; Limits::SESSIONS],
            marks: [0; Limits::SESSIONS],
            lists: [0; Limits::PLACES],
        }
    }

    // "Begin hands out the next number, with statement 0", and with the numbers open then. The new session stands behind the
    // open ones, and is not marked. The caller has refused where 16 are open or no number is left.
    pub fn begin(mut self) -> Desk
        requires { (open_count self.numbers < sessions) × (self.next ≤ last_next) }
        ensures { result ≡ begun self }
    {
        let k = places::open_count(&self.numbers);
        columns::put_list(&mut self.lists, k * Limits::MEMBERS, &self.numbers);
        self.numbers[k] = self.next;
        self.statements[k] = Desk::FIRST_STATEMENT;
        self.marks[k] = 0;
        self.next += 1;
        self
    }

    // "Next statement adds 1"
    pub fn next_statement(mut self, k: usize) -> Desk
        requires { (k < sessions) × (get_or self.statements k 0 < last_statement) }
        ensures { result ≡ moved k self }
    {
        self.statements[k] += 1;
        self
    }

    // "Commit .. closes": what it sets stands on the status page. It does what withdraw does: 01 names a
    // method for each change.
    pub fn commit(self, k: usize) -> Desk
        requires { k < sessions }
        ensures { result ≡ closed k self }
    {
        self.close(k)
    }

    // "withdraw .. closes" too.
    pub fn withdraw(self, k: usize) -> Desk
        requires { k < sessions }
        ensures { result ≡ closed k self }
    {
        self.close(k)
    }

    // The desk without the session at place k: later ones move up, and the lists of others keep its number.
    fn close(mut self, k: usize) -> Desk
        requires { k < sessions }
        ensures { result ≡ closed k self }
    {
        columns::pull_up(&mut self.numbers, k, 1);
        columns::pull_up(&mut self.statements, k, 1);
        columns::pull_up(&mut self.marks, k, 1);
        columns::pull_up(&mut self.lists, k * Limits::MEMBERS, Limits::MEMBERS);
        self
    }
}

// Whether a desk of these columns is sound: "the next number (1 to 32,576) and at most 16 open sessions in ascending order", each
// with "its number (below next)". "Anything else is an unsound desk."
pub fn columns_sound(desk: LentDesk) -> bool
    ensures { result ≡ sound_columns desk.entry.next desk.entry.numbers.now desk.entry.statements.now desk.entry.marks.now desk.entry.lists.now }
{
    (Desk::FIRST_NUMBER..=Desk::LAST_NEXT).contains(&desk.next) && places::sessions_sound(desk)
}
