// The store for a station's own program, from C or Rust (include/chirimok.h; station_c has the functions for the archive). Each function
// hands its call on, and says the number that the call answers, 0 where it is done. The desk is 289 words of 32 bits, lent; they change
// only where the call is done, but for the mark of a session that an update or delete answers 10 ("02, T-07"). No rule is here.
// The areas are lent apart, as C lends them: a call writes some of them and only reads others.
#![tactic(auto)]

ghost use Rattle.std.specs.Prelude.{◌≡◌, []};
ghost use Rattle.std.specs.Result.{result_unwrap_or};
ghost use Rattle.ground.specs.Does.{Does};
ghost use Rattle.ground.specs.Refuse.{kept};
ghost use Rattle.answer.specs.Code.{number_of};
ghost use Rattle.desk.specs.Desk.{no_desk};
ghost use Rattle.kind.specs.Areas.{areas};
ghost use Rattle.words.specs.Words.{words_of};
ghost use Rattle.station.specs.Station.{handed, lies_of, format_call, open_call, seal_call, begin_call, next_call, insert_call, update_call, delete_call, read_call, commit_call, withdraw_call, sweep_call};

use answer::Refusal;
use chain::Place;
use desk::Desk;
use kind::Kind;
use words::Words;

// Writes the desk that format and open hand back, where they are done; where they are refused the words stay.
fn put_kept(words: &mut Words, handed: &Result<Desk, Refusal>)
    ensures { words.new ≡ kept (number_of handed.now) (words_of (result_unwrap_or handed.now no_desk)) words.old }
{
    if let Ok(desk) = handed {
        words::put_desk(words, desk);
    }
}

// Where the body of a version lies: 0 nowhere, 1 in the data area, 2 in the undo area, and at which byte of it. These numbers are C's.
#[tactic(auto, using(crate::proofs::Calls::lies_slot, crate::proofs::Calls::lies_copy, crate::proofs::Calls::lies_nowhere, crate::proofs::Calls::lies_no_slot, crate::proofs::Calls::lies_no_copy))]
fn lies(data: &[u8], undo: &[u8], place: Place) -> (u64, u64)
    ensures { result ≡ lies_of place «data».now undo.now }
{
    match place {
        Place::Data(r) if r < kind::rows(data) => (1, Kind::DATA.place(r) as u64 + 32),
        Place::Undo(e) if e < kind::entries(undo) => (2, Kind::UNDO.place(e) as u64 + 48),
        _ => (0, 0),
    }
}

// Formats the areas, and writes a desk without sessions.
pub fn chirimok_format(data: &mut [u8], undo: &mut [u8], status: &mut [u8], desk: &mut Words) -> u32
    ensures { Does (format_call (areas «data».old undo.old status.old) desk.old) result (handed (areas «data».new undo.new status.new) desk.new []) }
{
    let formatted = keep::format(data, undo, status);
    put_kept(desk, &formatted);
    answer::code(&formatted)
}

// Checks sealed areas, and writes the desk to go on with.
pub fn chirimok_open(data: &[u8], undo: &[u8], status: &[u8], desk: &mut Words) -> u32
    ensures { Does (open_call (areas «data».now undo.now status.now) desk.old) result (handed (areas «data».now undo.now status.now) desk.new []) }
{
    let opened = keep::open(data, undo, status);
    put_kept(desk, &opened);
    answer::code(&opened)
}

// Writes the checksum of every page. No session may be open.
pub fn chirimok_seal(data: &mut [u8], undo: &mut [u8], status: &mut [u8], desk: &Words) -> u32
    ensures { Does (seal_call (areas «data».old undo.old status.old) desk.now) result (handed (areas «data».new undo.new status.new) desk.now []) }
{
    answer::code(&keep::seal(data, undo, status, desk))
}

// Begins a session: out has its number.
pub fn chirimok_begin(
    data: &[u8],
    undo: &[u8],
    status: &mut [u8],
    desk: &mut Words,
    out: &mut [u64; 1],
) -> u32
    ensures { Does (begin_call (areas «data».now undo.now status.old) desk.old) result (handed (areas «data».now undo.now status.new) desk.new out.new) }
{
    let begun = turns::begin(data, undo, status, desk);
    let code = answer::code(&begun);
    *out = [begun.unwrap_or(0)];
    code
}

// Moves a session on to its next statement.
pub fn chirimok_next(data: &[u8], undo: &[u8], status: &[u8], desk: &mut Words, session: u64) -> u32
    ensures { Does (next_call (areas «data».now undo.now status.now) desk.old session) result (handed (areas «data».now undo.now status.now) desk.new []) }
{
    answer::code(&turns::next(data, undo, status, desk, session))
}

// Makes a new row: out has its number.
pub fn chirimok_insert(
    data: &mut [u8],
    undo: &[u8],
    status: &[u8],
    desk: &Words,
    session: u64,
    body: &[u8],
    out: &mut [u64; 1],
) -> u32
    ensures { Does (insert_call (areas «data».old undo.now status.now) desk.now session body.now) result (handed (areas «data».new undo.now status.now) desk.now out.new) }
{
    let inserted = rows::insert(data, undo, status, desk, session, body);
    let code = answer::code(&inserted);
    *out = [inserted.unwrap_or(0) as u64];
    code
}

// Replaces a row's body. Where it answers 10 the session's mark is set, and no other word changes.
pub fn chirimok_update(
    data: &mut [u8],
    undo: &mut [u8],
    status: &[u8],
    desk: &mut Words,
    session: u64,
    row: u64,
    body: &[u8],
) -> u32
    ensures { Does (update_call (areas «data».old undo.old status.now) desk.old session row body.now) result (handed (areas «data».new undo.new status.now) desk.new []) }
{
    answer::code(&rows::update(data, undo, status, desk, session, row as usize, body))
}

// Ends a row. Where it answers 10 the session's mark is set, and no other word changes.
pub fn chirimok_delete<'a>(
    data: &mut [u8],
    undo: &'a [u8],
    status: &'a [u8],
    desk: &mut Words,
    session: u64,
    row: u64,
) -> u32
    ensures { Does (delete_call (areas «data».old undo.now status.now) desk.old session row) result (handed (areas «data».new undo.now status.now) desk.new []) }
{
    answer::code(&rows::delete(data, undo, status, desk, session, row as usize))
}

// Finds what a session reads: out has the count of versions looked at, the area (1 data, 2 undo), and where in it the body begins.
pub fn chirimok_read<'a>(
    data: &'a [u8],
    undo: &'a [u8],
    status: &'a [u8],
    desk: &'a Words,
    session: u64,
    row: u64,
    out: &mut [u64; 3],
) -> u32
    ensures { Does (read_call (areas «data».now undo.now status.now) desk.now session row) result (handed (areas «data».now undo.now status.now) desk.now out.new) }
{
    let read = rows::read(data, undo, status, desk, session, row as usize);
    let code = answer::code(&read);
    *out = match read {
        Ok(found) => {
            let (area, at) = lies(data, undo, found.place);
            [found.looked as u64, area, at]
        }
        Err(_) => [0; 3],
    };
    code
}

// Commits a session's writes, and closes it.
pub fn chirimok_commit(
    data: &[u8],
    undo: &[u8],
    status: &mut [u8],
    desk: &mut Words,
    session: u64,
) -> u32
    ensures { Does (commit_call (areas «data».now undo.now status.old) desk.old session) result (handed (areas «data».now undo.now status.new) desk.new []) }
{
    answer::code(&turns::commit(data, undo, status, desk, session))
}

// Takes a session's writes back, and closes it.
pub fn chirimok_withdraw(
    data: &mut [u8],
    undo: &mut [u8],
    status: &mut [u8],
    desk: &mut Words,
    session: u64,
) -> u32
    ensures { Does (withdraw_call (areas «data».old undo.old status.old) desk.old session) result (handed (areas «data».new undo.new status.new) desk.new []) }
{
    answer::code(&undoing::withdraw(data, undo, status, desk, session))
}

// Sweeps as many rows: out has the next row and the versions removed.
pub fn chirimok_sweep(
    data: &mut [u8],
    undo: &mut [u8],
    status: &[u8],
    desk: &Words,
    first: u64,
    quota: u64,
    out: &mut [u64; 2],
) -> u32
    ensures { Does (sweep_call (areas «data».old undo.old status.now) desk.now first quota) result (handed (areas «data».new undo.new status.now) desk.now out.new) }
{
    let swept = sweeping::sweep(data, undo, status, desk, first as usize, quota as usize);
    let code = answer::code(&swept);
    *out = match swept {
        Ok(swept) => [swept.next as u64, swept.removed as u64],
        Err(_) => [0; 2],
    };
    code
}
