// The store for a station's own program, from C or Rust (include/chirimok.h): the functions of `station` under their names in the archive,
// each with its clauses. No crate can stand on a static library, so the theorems about these calls are over `station`.
#![tactic(auto)]

ghost use Rattle.std.specs.Prelude.{[]};
ghost use Rattle.ground.specs.Does.{Does};
ghost use Rattle.kind.specs.Areas.{areas};
ghost use Rattle.station.specs.Station.{handed, format_call, open_call, seal_call, begin_call, next_call, insert_call, update_call, delete_call, read_call, commit_call, withdraw_call, sweep_call};

use words::Words;

// Formats the areas, and writes a desk without sessions.
#[unsafe(no_mangle)]
pub extern "C" fn chirimok_format(
    data: &mut [u8],
    undo: &mut [u8],
    status: &mut [u8],
    desk: &mut Words,
) -> u32
    ensures { Does (format_call (areas «data».old undo.old status.old) desk.old) result (handed (areas «data».new undo.new status.new) desk.new []) }
{
    station::chirimok_format(data, undo, status, desk)
}

// Checks sealed areas, and writes the desk to go on with.
#[unsafe(no_mangle)]
pub extern "C" fn chirimok_open(data: &[u8], undo: &[u8], status: &[u8], desk: &mut Words) -> u32
    ensures { Does (open_call (areas «data».now undo.now status.now) desk.old) result (handed (areas «data».now undo.now status.now) desk.new []) }
{
    station::chirimok_open(data, undo, status, desk)
}

// Writes the checksum of every page. No session may be open.
#[unsafe(no_mangle)]
pub extern "C" fn chirimok_seal(
    data: &mut [u8],
    undo: &mut [u8],
    status: &mut [u8],
    desk: &Words,
) -> u32
    ensures { Does (seal_call (areas «data».old undo.old status.old) desk.now) result (handed (areas «data».new undo.new status.new) desk.now []) }
{
    station::chirimok_seal(data, undo, status, desk)
}

// Begins a session: out has its number.
#[unsafe(no_mangle)]
pub extern "C" fn chirimok_begin(
    data: &[u8],
    undo: &[u8],
    status: &mut [u8],
    desk: &mut Words,
    out: &mut [u64; 1],
) -> u32
    ensures { Does (begin_call (areas «data».now undo.now status.old) desk.old) result (handed (areas «data».now undo.now status.new) desk.new out.new) }
{
    station::chirimok_begin(data, undo, status, desk, out)
}

// Moves a session on to its next statement.
#[unsafe(no_mangle)]
pub extern "C" fn chirimok_next(
    data: &[u8],
    undo: &[u8],
    status: &[u8],
    desk: &mut Words,
    session: u64,
) -> u32
    ensures { Does (next_call (areas «data».now undo.now status.now) desk.old session) result (handed (areas «data».now undo.now status.now) desk.new []) }
{
    station::chirimok_next(data, undo, status, desk, session)
}

// Makes a new row: out has its number.
#[unsafe(no_mangle)]
pub extern "C" fn chirimok_insert(
    data: &mut [u8],
    undo: &[u8],
    status: &[u8],
    desk: &Words,
    session: u64,
    body: &[u8],
    out: &mut [u64; 1],
) -> u32
    ensures { Does (insert_call (areas «data».old undo.now status.now) desk.now session body.now) result (handed (areas «data».new undo.now status.now) desk.now out.new) }
{
    station::chirimok_insert(data, undo, status, desk, session, body, out)
}

// Replaces a row's body. Where it answers 10 the session's mark is set, and no other word changes.
#[unsafe(no_mangle)]
pub extern "C" fn chirimok_update(
    data: &mut [u8],
    undo: &mut [u8],
    status: &[u8],
    desk: &mut Words,
    session: u64,
    row: u64,
    body: &[u8],
) -> u32
    ensures { Does (update_call (areas «data».old undo.old status.now) desk.old session row body.now) result (handed (areas «data».new undo.new status.now) desk.new []) }
{
    station::chirimok_update(data, undo, status, desk, session, row, body)
}

// Ends a row. Where it answers 10 the session's mark is set, and no other word changes.
#[unsafe(no_mangle)]
pub extern "C" fn chirimok_delete<'a>(
    data: &mut [u8],
    undo: &'a [u8],
    status: &'a [u8],
    desk: &mut Words,
    session: u64,
    row: u64,
) -> u32
    ensures { Does (delete_call (areas «data».old undo.now status.now) desk.old session row) result (handed (areas «data».new undo.now status.now) desk.new []) }
{
    station::chirimok_delete(data, undo, status, desk, session, row)
}

// Finds what a session reads: out has the count of versions looked at, the area (1 data, 2 undo), and where in it the body begins.
#[unsafe(no_mangle)]
pub extern "C" fn chirimok_read<'a>(
    data: &'a [u8],
    undo: &'a [u8],
    status: &'a [u8],
    desk: &'a Words,
    session: u64,
    row: u64,
    out: &mut [u64; 3],
) -> u32
    ensures { Does (read_call (areas «data».now undo.now status.now) desk.now session row) result (handed (areas «data».now undo.now status.now) desk.now out.new) }
{
    station::chirimok_read(data, undo, status, desk, session, row, out)
}

// Commits a session's writes, and closes it.
#[unsafe(no_mangle)]
pub extern "C" fn chirimok_commit(
    data: &[u8],
    undo: &[u8],
    status: &mut [u8],
    desk: &mut Words,
    session: u64,
) -> u32
    ensures { Does (commit_call (areas «data».now undo.now status.old) desk.old session) result (handed (areas «data».now undo.now status.new) desk.new []) }
{
    station::chirimok_commit(data, undo, status, desk, session)
}

// Takes a session's writes back, and closes it.
#[unsafe(no_mangle)]
pub extern "C" fn chirimok_withdraw(
    data: &mut [u8],
    undo: &mut [u8],
    status: &mut [u8],
    desk: &mut Words,
    session: u64,
) -> u32
    ensures { Does (withdraw_call (areas «data».old undo.old status.old) desk.old session) result (handed (areas «data».new undo.new status.new) desk.new []) }
{
    station::chirimok_withdraw(data, undo, status, desk, session)
}

// Sweeps as many rows: out has the next row and the versions removed.
#[unsafe(no_mangle)]
pub extern "C" fn chirimok_sweep(
    data: &mut [u8],
    undo: &mut [u8],
    status: &[u8],
    desk: &Words,
    first: u64,
    quota: u64,
    out: &mut [u64; 2],
) -> u32
    ensures { Does (sweep_call (areas «data».old undo.old status.now) desk.now first quota) result (handed (areas «data».new undo.new status.now) desk.now out.new) }
{
    station::chirimok_sweep(data, undo, status, desk, first, quota, out)
}
