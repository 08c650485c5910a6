// One call of a script, played on a store, and its answer written as a line ("01, The script and one whole run"). Nothing is decided
// here: each call is handed to its own function, and what that answers is said. The script carries a Desk from line to line,
// so a call's words are made of it once, and where the call changes them, the Desk of them again.
// The areas are lent apart, as C lends them: a call writes some of them and only reads others.
// One function for each call, alike as they are: given the call as a closure, one for all would no more say whose rule it keeps.
#![tactic(auto)]

ghost use Rattle.std.specs.Prelude.{◌≡◌, [], ◌+◌, ◌≤◌, length};
ghost use Rattle.answer.specs.declared.Refusal.TheVariants.{IllFormed};
ghost use Rattle.answer.specs.Code.{code_of};
ghost use Rattle.kind.specs.Areas.{areas};
ghost use Rattle.words.specs.Words.{desk_in};
ghost use Rattle.reply.specs.Reply.{longest, Says, answer_line};
ghost use Rattle.line.specs.declared.Verb.TheVariants.{Format, Open, Seal, Begin, Next, Insert, Update, Delete, Read, Commit, Withdraw, Sweep};
ghost use Rattle.calls.specs.Calls.{format_leaves, open_leaves, seal_leaves, begin_leaves, next_leaves, insert_leaves, update_leaves, delete_leaves, read_leaves, commit_leaves, withdraw_leaves, sweep_leaves};
ghost use Rattle.playing.specs.Playing.{Plays, play_rule};

use answer::Refusal;
use desk::Desk;
use line::{Command, Verb};
use words::Words;

// What a played call leaves beside the areas: the code, as its line says it, the desk, and where its line ends.
#[derive(Drop)]
pub struct Played {
    pub code: u32,
    pub desk: Desk,
    pub end: usize,
}

// The desk that a call left in its words. They are lent whole: what a call had as `&mut` comes back without its length, which a
// reference to all of them says by itself.
fn desk_left(words: &Words) -> Desk
    ensures { result ≡ desk_in words.now }
{
    words::desk_in(words)
}

// Formats what is lent; a refusal leaves the desk as it was.
fn format(
    data: &mut [u8],
    undo: &mut [u8],
    status: &mut [u8],
    desk: Desk,
    out: &mut [u8],
    at: usize,
) -> Played
    requires { at + longest ≤ length out.old }
    ensures { Plays Format (format_leaves (areas «data».old undo.old status.old) desk) at out.old result (areas «data».new undo.new status.new) out.new }
{
    let formatted = keep::format(data, undo, status);
    let code = answer::code(&formatted);
    let end = reply::plain(out, at, code);
    Played {
        code,
        desk: formatted.unwrap_or(desk),
        end,
    }
}

fn open(data: &[u8], undo: &[u8], status: &[u8], desk: Desk, out: &mut [u8], at: usize) -> Played
    requires { at + longest ≤ length out.old }
    ensures { Plays Open (open_leaves (areas «data».now undo.now status.now) desk) at out.old result (areas «data».now undo.now status.now) out.new }
{
    let opened = keep::open(data, undo, status);
    let code = answer::code(&opened);
    let end = reply::plain(out, at, code);
    Played {
        code,
        desk: opened.unwrap_or(desk),
        end,
    }
}

fn seal(
    data: &mut [u8],
    undo: &mut [u8],
    status: &mut [u8],
    desk: Desk,
    out: &mut [u8],
    at: usize,
) -> Played
    requires { at + longest ≤ length out.old }
    ensures { Plays Seal (seal_leaves (areas «data».old undo.old status.old) desk) at out.old result (areas «data».new undo.new status.new) out.new }
{
    let w = words::words_of(desk);
    let sealed = keep::seal(data, undo, status, &w);
    let code = answer::code(&sealed);
    let end = reply::plain(out, at, code);
    Played { code, desk, end }
}

fn begin(
    data: &[u8],
    undo: &[u8],
    status: &mut [u8],
    desk: Desk,
    out: &mut [u8],
    at: usize,
) -> Played
    requires { at + longest ≤ length out.old }
    ensures { Plays Begin (begin_leaves (areas «data».now undo.now status.old) desk) at out.old result (areas «data».now undo.now status.new) out.new }
{
    let mut w = words::words_of(desk);
    let begun = turns::begin(data, undo, status, &mut w);
    let desk = desk_left(&w);
    let code = answer::code(&begun);
    let end = reply::numbered(out, at, code, begun.unwrap_or(0));
    Played { code, desk, end }
}

fn next(
    data: &[u8],
    undo: &[u8],
    status: &[u8],
    desk: Desk,
    session: u64,
    out: &mut [u8],
    at: usize,
) -> Played
    requires { at + longest ≤ length out.old }
    ensures { Plays Next (next_leaves (areas «data».now undo.now status.now) desk session) at out.old result (areas «data».now undo.now status.now) out.new }
{
    let mut w = words::words_of(desk);
    let moved = turns::next(data, undo, status, &mut w, session);
    let desk = desk_left(&w);
    let code = answer::code(&moved);
    let end = reply::plain(out, at, code);
    Played { code, desk, end }
}

fn insert(
    data: &mut [u8],
    undo: &[u8],
    status: &[u8],
    desk: Desk,
    session: u64,
    body: &[u8],
    out: &mut [u8],
    at: usize,
) -> Played
    requires { at + longest ≤ length out.old }
    ensures { Plays Insert (insert_leaves (areas «data».old undo.now status.now) desk session body.now) at out.old result (areas «data».new undo.now status.now) out.new }
{
    let w = words::words_of(desk);
    let inserted = rows::insert(data, undo, status, &w, session, body);
    let code = answer::code(&inserted);
    let end = reply::numbered(out, at, code, inserted.unwrap_or(0) as u64);
    Played { code, desk, end }
}

fn update(
    data: &mut [u8],
    undo: &mut [u8],
    status: &[u8],
    desk: Desk,
    session: u64,
    row: usize,
    body: &[u8],
    out: &mut [u8],
    at: usize,
) -> Played
    requires { at + longest ≤ length out.old }
    ensures { Plays Update (update_leaves (areas «data».old undo.old status.now) desk session row body.now) at out.old result (areas «data».new undo.new status.now) out.new }
{
    let mut w = words::words_of(desk);
    let updated = rows::update(data, undo, status, &mut w, session, row, body);
    let desk = desk_left(&w);
    let code = answer::code(&updated);
    let end = reply::plain(out, at, code);
    Played { code, desk, end }
}

fn delete<'a>(
    data: &mut [u8],
    undo: &'a [u8],
    status: &'a [u8],
    desk: Desk,
    session: u64,
    row: usize,
    out: &mut [u8],
    at: usize,
) -> Played
    requires { at + longest ≤ length out.old }
    ensures { Plays Delete (delete_leaves (areas «data».old undo.now status.now) desk session row) at out.old result (areas «data».new undo.now status.now) out.new }
{
    let mut w = words::words_of(desk);
    let deleted = rows::delete(data, undo, status, &mut w, session, row);
    let desk = desk_left(&w);
    let code = answer::code(&deleted);
    let end = reply::plain(out, at, code);
    Played { code, desk, end }
}

fn read<'a>(
    data: &'a [u8],
    undo: &'a [u8],
    status: &'a [u8],
    desk: Desk,
    session: u64,
    row: usize,
    out: &mut [u8],
    at: usize,
) -> Played
    requires { at + longest ≤ length out.old }
    ensures { Plays Read (read_leaves (areas «data».now undo.now status.now) desk session row) at out.old result (areas «data».now undo.now status.now) out.new }
{
    let w = words::words_of(desk);
    let read = rows::read(data, undo, status, &w, session, row);
    let code = answer::code(&read);
    let end = match read {
        Ok(found) => {
            let body = chain::body(data, undo, found.place);
            reply::bodied(out, at, code, found.looked as u64, body)
        }
        Err(_) => reply::plain(out, at, code),
    };
    Played { code, desk, end }
}

fn commit(
    data: &[u8],
    undo: &[u8],
    status: &mut [u8],
    desk: Desk,
    session: u64,
    out: &mut [u8],
    at: usize,
) -> Played
    requires { at + longest ≤ length out.old }
    ensures { Plays Commit (commit_leaves (areas «data».now undo.now status.old) desk session) at out.old result (areas «data».now undo.now status.new) out.new }
{
    let mut w = words::words_of(desk);
    let committed = turns::commit(data, undo, status, &mut w, session);
    let desk = desk_left(&w);
    let code = answer::code(&committed);
    let end = reply::plain(out, at, code);
    Played { code, desk, end }
}

fn withdraw(
    data: &mut [u8],
    undo: &mut [u8],
    status: &mut [u8],
    desk: Desk,
    session: u64,
    out: &mut [u8],
    at: usize,
) -> Played
    requires { at + longest ≤ length out.old }
    ensures { Plays Withdraw (withdraw_leaves (areas «data».old undo.old status.old) desk session) at out.old result (areas «data».new undo.new status.new) out.new }
{
    let mut w = words::words_of(desk);
    let withdrawn = undoing::withdraw(data, undo, status, &mut w, session);
    let desk = desk_left(&w);
    let code = answer::code(&withdrawn);
    let end = reply::plain(out, at, code);
    Played { code, desk, end }
}

fn sweep(
    data: &mut [u8],
    undo: &mut [u8],
    status: &[u8],
    desk: Desk,
    first: usize,
    quota: usize,
    out: &mut [u8],
    at: usize,
) -> Played
    requires { at + longest ≤ length out.old }
    ensures { Plays Sweep (sweep_leaves (areas «data».old undo.old status.now) desk first quota) at out.old result (areas «data».new undo.new status.now) out.new }
{
    let w = words::words_of(desk);
    let swept = sweeping::sweep(data, undo, status, &w, first, quota);
    let code = answer::code(&swept);
    let end = match swept {
        Ok(swept) => reply::paired(out, at, code, swept.next as u64, swept.removed as u64),
        Err(_) => reply::plain(out, at, code),
    };
    Played { code, desk, end }
}

// "An ill-formed, too long or unended line, or a number above 2^64 − 1, answers one 16"
fn ill_formed(desk: Desk, out: &mut [u8], at: usize) -> Played
    requires { at + longest ≤ length out.old }
    ensures { (result.code ≡ code_of IllFormed) × (result.desk ≡ desk) × Says (answer_line result.code []) at out.old result.end out.new }
{
    let code = u32::from(Refusal::IllFormed);
    let end = reply::plain(out, at, code);
    Played { code, desk, end }
}

// Plays a call, by its name.
pub fn play(
    data: &mut [u8],
    undo: &mut [u8],
    status: &mut [u8],
    desk: Desk,
    command: Command,
    out: &mut [u8],
    at: usize,
) -> Played
    requires { at + longest ≤ length out.old }
    ensures { Plays command.verb (play_rule (areas «data».old undo.old status.old) desk command) at out.old result (areas «data».new undo.new status.new) out.new }
{
    let verb = command.verb;
    let x = command.first;
    let row = command.second as usize;
    let body = command.body;
    match verb {
        Verb::Format => format(data, undo, status, desk, out, at),
        Verb::Open => open(data, undo, status, desk, out, at),
        Verb::Seal => seal(data, undo, status, desk, out, at),
        Verb::Begin => begin(data, undo, status, desk, out, at),
        Verb::Next => next(data, undo, status, desk, x, out, at),
        Verb::Insert => insert(data, undo, status, desk, x, &body, out, at),
        Verb::Update => update(data, undo, status, desk, x, row, &body, out, at),
        Verb::Delete => delete(data, undo, status, desk, x, row, out, at),
        Verb::Read => read(data, undo, status, desk, x, row, out, at),
        Verb::Commit => commit(data, undo, status, desk, x, out, at),
        Verb::Withdraw => withdraw(data, undo, status, desk, x, out, at),
        Verb::Sweep => sweep(data, undo, status, desk, x as usize, row, out, at),
        Verb::IllFormed => ill_formed(desk, out, at),
    }
}
