// The walk along a row's versions to the one that a session reads ("01, Sessions and sight"), and whether a version looked at on the way
// names a number of status 11, of which nobody can tell whether it was committed ("02, T-05"). The walk goes on over such a version as if it
// weren't. It counts its steps and keeps no list of the entries passed; that this is the same is shown in chain/proofs.
#![tactic(auto)]

ghost use Rattle.std.specs.Prelude.{◌≡◌, ◌||◌, cond, ◌<◌};
ghost use Rattle.kind.specs.Kind.{rows};
ghost use Rattle.sight.specs.Sight.{said_view};
ghost use Rattle.chain.specs.Walk.{follow_rule};
ghost use Rattle.doubt.specs.declared.Missing.TheVariants.{Doubted};
ghost use Rattle.doubt.specs.Doubt.{reserved, doubtful, doubt_in, doubts_behind, look_by, look_rule, refusal_of};

use answer::Refusal;
use chain::{Found, Link, Place};
use records::slot::Slot;
use sight::{StatusPage, View};
use status::Status;

// Why the walk answers no version: there is none, a break before one, or a version looked at is in doubt.
#[derive(Clone, Copy)]
pub enum Missing {
    Absent,
    Broken,
    Doubted,
}

// What a call refuses then: "no version there", "broken chain met before a version is found", a version in doubt.
impl From<Missing> for Refusal {
    ghost from_gives = { λ missing refusal. refusal ≡ refusal_of missing };

    fn from(missing: Missing) -> Refusal {
        match missing {
            Missing::Absent => Refusal::NotThere,
            Missing::Broken => Refusal::Broken,
            Missing::Doubted => Refusal::InDoubt,
        }
    }
}

// Whether x "has status 11". "Number 0 and those above 32,575" have none.
#[tactic(auto, using(crate::proofs::Doubts::same_reserved), unfolding(crate::specs::Doubt::reserved))]
fn is_reserved(status: StatusPage, x: u64) -> bool
    ensures { result ≡ reserved x status.entry.bytes.now }
{
    status.standing_of(x) == Status::Reserved
}

// Whether x, "other than the acting session, has status 11".
#[tactic(auto, using(crate::proofs::Doubts::doubtful_own, crate::proofs::Doubts::doubtful_other))]
fn is_doubtful(status: StatusPage, session: u64, x: u64) -> bool
    ensures { result ≡ doubtful session status.entry.bytes.now x }
{
    x != session && is_reserved(status, x)
}

// Whether "the creator or expirer" of a version is such a number. Hardly ever is the one, so the other is asked without waiting for it.
#[tactic(auto, unfolding(crate::specs::Doubt::in_doubt))]
fn in_doubt(status: StatusPage, session: u64, m: Slot) -> bool
    ensures { result ≡ doubt_in session status.entry.bytes.now m }
{
    is_doubtful(status, session, m.create) | is_doubtful(status, session, m.expire)
}

// What a walk that met no break answers: "any such version looked at, the answer included, gives 17".
fn unless_doubted(met: bool, answer: Result<Found, Missing>) -> Result<Found, Missing>
    ensures { result ≡ cond met (Err Doubted) answer }
{
    if met {
        return Err(Missing::Doubted);
    }
    answer
}

// The walk behind the slot, which was looked at: from the pointer on, along the undo pointers, to the first copy that is there. The
// chain is broken where it "leads to an entry already passed": then it goes round, until as many copies as there are entries were
// looked at. `met` tells whether the slot was in doubt. The loop yields what it found by break, the form that 01 names for it, and counts
// its steps by hand.
#[tactic(auto, using(crate::proofs::Looks::stands_first, crate::proofs::Looks::stands_broken, crate::proofs::Looks::stands_ended, crate::proofs::Looks::stands_out, crate::proofs::Looks::stands_found, crate::proofs::Looks::stands_on))]
fn search_copies(
    undo: &[u8],
    status: StatusPage,
    view: View,
    row: usize,
    first: u64,
    met: bool,
) -> Result<Found, Missing>
    ensures { result ≡ look_by (met || doubts_behind undo.now status.entry.bytes.now (said_view view.entry) row first) (follow_rule undo.now status.entry.bytes.now (said_view view.entry) row first) }
{
    let most = kind::entries(undo);
    let mut ptr = first;
    let mut looked = 1;
    let mut noted = met;
    let found = loop {
        match chain::follow(undo, row, ptr) {
            Link::Break => break Err(Missing::Broken),
            Link::End => break unless_doubted(noted, Err(Missing::Absent)),
            Link::To(e, m) => {
                if looked > most {
                    break Err(Missing::Broken);
                }
                noted = noted | in_doubt(status, view.number, m.copy);
                looked += 1;
                if view.is_there(status, chain::stamp_of(m.copy)) {
                    let place = Place::Undo(e);
                    break unless_doubted(noted, Ok(Found { place, looked }));
                }
                ptr = m.copy.undo_ptr;
            }
        }
    };
    found
}

// "S reads the first such version, starting at the slot and following undo pointers", and how many versions were looked at, "the
// answer included", where none of them was in doubt. An empty slot has no version. Of a slot that is there the expirer alone may be in
// doubt: its creator is the session itself, or committed.
#[tactic(auto, using(crate::proofs::Looks::look_empty, crate::proofs::Looks::look_at, crate::proofs::Looks::look_on))]
pub fn search(
    data: &[u8],
    undo: &[u8],
    status: StatusPage,
    view: View,
    row: usize,
) -> Result<Found, Missing>
    requires { row < rows «data».now }
    ensures { result ≡ look_rule «data».now undo.now status.entry.bytes.now (said_view view.entry) row }
{
    let m = records::slot::read_slot(data, row);
    if m.create == 0 {
        return Err(Missing::Absent);
    }
    if view.is_there(status, chain::stamp_of(m)) {
        let place = Place::Data(row);
        let doubted = is_doubtful(status, view.number, m.expire);
        return unless_doubted(doubted, Ok(Found { place, looked: 1 }));
    }
    let met = in_doubt(status, view.number, m);
    search_copies(undo, status, view, row, m.undo_ptr, met)
}
