// Who sees what ("01, Sessions and sight"): the status of any number, "S sees X", and "a version is there for S". A version is known
// here by its stamp alone, so that whatever carries one is seen by the same rule.
#![tactic(auto)]

ghost use Rattle.std.specs.Prelude.{◌≡◌, length};
ghost use Rattle.kind.specs.Kind.{page_size};
ghost use Rattle.sight.specs.Sight.{said_view, standing, committed, listed, sees, known, there};

use desk::Desk;
use status::{Status, status_at};

// What sight looks at: who made a version and who ended it, each with its statement.
#[derive(Clone, Copy)]
pub struct Stamp {
    pub create: u64,
    pub expire: u64,
    pub cmd: u32,
    pub expire_cmd: u32,
}

// What a session sees by: its number, its statement, and the numbers open when it began, lent as far as they are used, so that no search
// meets an unused place.
#[derive(Clone, Copy)]
pub struct View<'a> {
    pub number: u64,
    pub statement: u32,
    pub list: &'a [u32],
}

// The status page, lent whole.
#[derive(Clone, Copy)]
pub struct StatusPage<'a> {
    pub bytes: &'a [u8],
    pub ghost whole: { length bytes.now ≡ page_size },
}

impl<'a> StatusPage<'a> {
    // The status of any number; 0 and numbers above 32,575, of which the page says nothing, count as in work.
    #[tactic(auto, unfolding(crate::specs::Sight::standing))]
    pub fn standing_of(self, x: u64) -> Status
        ensures { result ≡ standing x self.entry.bytes.now }
    {
        if (Desk::FIRST_NUMBER as u64 <= x) & (x <= Status::LAST_NUMBER) {
            status_at(self.bytes, x as usize)
        } else {
            Status::InWork
        }
    }

    // Whether x "has status 01".
    #[tactic(auto, using(crate::proofs::Sights::same_committed), unfolding(crate::specs::Sight::committed))]
    pub fn is_committed(self, x: u64) -> bool
        ensures { result ≡ committed x self.entry.bytes.now }
    {
        self.standing_of(x) == Status::Committed
    }
}

impl<'a> View<'a> {
    // Whether x is among the numbers open when the session began.
    fn lists(self, x: u64) -> bool
        ensures { result ≡ listed x self.entry.list.now }
    {
        self.list.iter().any(|member| *member as u64 == x)
    }

    // "S sees X when X is not 0, is below S's number, is not in S's list and has status 01": 0 has no status, and the list is
    // searched last.
    #[tactic(auto, using(crate::proofs::Sights::sees_far, crate::proofs::Sights::sees_open, crate::proofs::Sights::sees_rest))]
    pub fn sees(self, status: StatusPage, x: u64) -> bool
        ensures { result ≡ sees self.entry.number self.entry.list.now status.entry.bytes.now x }
    {
        x < self.number && status.is_committed(x) && !self.lists(x)
    }

    // Whether x, at statement cmd, "is S in an earlier statement or is seen".
    #[tactic(auto, unfolding(crate::specs::Sight::known, crate::specs::Sight::earlier))]
    fn knows(self, status: StatusPage, x: u64, cmd: u32) -> bool
        ensures { result ≡ known (said_view self.entry) status.entry.bytes.now x cmd }
    {
        (x == self.number) & (cmd < self.statement) || self.sees(status, x)
    }

    // "A version is there for S when its creator is S in an earlier statement or is seen, and its expirer is neither S in an earlier
    // statement nor seen (expire 0: none)."
    #[tactic(auto, using(crate::proofs::Sights::there_unknown, crate::proofs::Sights::there_unexpired, crate::proofs::Sights::there_expired))]
    pub fn is_there(self, status: StatusPage, t: Stamp) -> bool
        ensures { result ≡ there (said_view self.entry) status.entry.bytes.now t }
    {
        self.knows(status, t.create, t.cmd)
            && (t.expire == 0 || !self.knows(status, t.expire, t.expire_cmd))
    }
}
