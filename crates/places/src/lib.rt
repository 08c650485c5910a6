// The places of the desk's columns: when a run of them ascends, when the places of all sessions are sound, how many sessions are open,
// and where one stands ("01, Sessions and sight"). The columns are lent, and no copy of them is made.
#![tactic(auto)]

ghost use Rattle.std.specs.Prelude.{◌≡◌, ◌&&◌, ◌≤◌, length, eqb};
ghost use Rattle.ground.specs.Range.{all_below, found_below};
ghost use Rattle.columns.specs.Limits.{sessions};
ghost use Rattle.places.specs.Places.{ascending, session_sound};
ghost use Rattle.places.specs.Open.{open_count, place_in};

use columns::{Column, LentDesk, Limits};

// The bits of the places, taken together: none where all of them are unused. No place is asked alone, so that many are read at once.
fn bits(places: &[u32]) -> u32
    ensures { eqb result 0 ≡ ascending 0 places.now 0 (length places.now) }
{
    places.iter().fold(0, |bits, place| bits | *place)
}

// Whether the places are unused: what ascends answers below 0, where there is no number. Most places of a desk are unused. The last
// eight are looked at whether or not some of them have been, since a rest of single places costs more than all the others.
fn unused(places: &[u32]) -> bool
    ensures { result ≡ ascending 0 places.now 0 (length places.now) }
{
    let eights = places.len() / 8 * 8;
    match places.last_chunk::<8>() {
        Some(last) => bits(&places[..eights]) | bits(last) == 0,
        None => bits(places) == 0,
    }
}

// Whether the places hold numbers from 1 on, below top and ascending, and behind them only unused places ("ascending means no two
// equal, unused places are zero"). Used places are looked at one by one.
fn ascends(top: u32, places: &[u32]) -> bool
    ensures { result ≡ ascending top places.now 0 (length places.now) }
{
    let mut low = 0;
    for (i, &x) in places.iter().enumerate() {
        if x == 0 {
            return unused(&places[i..]);
        }
        if (x < top) & (low < x) {
            low = x;
        } else {
            return false;
        }
    }
    true
}

// Whether the numbers ascend and each of the 16 places is sound, open or unused: "its statement (0 to 65,535) and the numbers open when
// it began: at most 15, ascending, below its own", and its mark 0 or 1. Behind the first unused place there is no session, so that all
// statements, marks and lists behind it are zero.
pub fn sessions_sound(desk: LentDesk) -> bool
    ensures { result ≡ (ascending desk.entry.next desk.entry.numbers.now 0 sessions && all_below (session_sound desk.entry.numbers.now desk.entry.statements.now desk.entry.marks.now desk.entry.lists.now) sessions) }
{
    let LentDesk {
        next,
        numbers,
        statements,
        marks,
        lists,
    } = desk;
    if !ascends(next, numbers) {
        return false;
    }
    for k in 0..Limits::SESSIONS {
        let number = numbers[k];
        let at = k * Limits::MEMBERS;
        if number == 0 {
            return unused(&statements[k..]) & unused(&marks[k..]) & unused(&lists[at..]);
        }
        let fits = (statements[k] <= Limits::LAST_STATEMENT) & (marks[k] <= Limits::SPOILED);
        let end = at + Limits::MEMBERS;
        if !(fits & ascends(number, &lists[at..end])) {
            return false;
        }
    }
    true
}

// How many sessions are open. A filter that is counted takes six times as long.
pub fn open_count(numbers: &Column) -> usize
    ensures { (result ≡ open_count numbers.now) × (result ≤ sessions) }
{
    let mut n = 0;
    for number in numbers {
        if *number != 0 {
            n += 1;
        }
    }
    n
}

// The place at which number x stands, if it stands at one. Of 0 it is the first unused place: session 0 is never open.
pub fn find(numbers: &Column, x: u64) -> Option<usize>
    ensures { result ≡ found_below sessions (place_in x numbers.now) }
{
    numbers.iter().position(|number| u64::from(*number) == x)
}
