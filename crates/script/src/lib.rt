// A script run on lent areas ("01, The script and one whole run"): text in, answers out. A text may come in pieces; what one piece
// leaves, the next goes on from.
// The areas are lent apart, as C lends them: a call writes some of them and only reads others.
#![tactic(auto)]

ghost use Rattle.std.specs.Prelude.{◌≡◌, cond, ◌+◌, ◌-◌, ◌≤◌, length, take, drop};
ghost use Rattle.kind.specs.Areas.{areas};
ghost use Rattle.line.specs.Line.{command_of, ill};
ghost use Rattle.reply.specs.Reply.{longest};
ghost use Rattle.lines.specs.Lines.{line_at};
ghost use Rattle.script.specs.Script.{named as named·spec, lent as lent·spec, is_format, carried, Steps, fresh_footing, in_line, Rests, Yields, run_rule, room_for, Goes};

use answer::Refusal;
use desk::Desk;
use kind::Kind;
use line::{Command, Verb};
use lines::{Line, Reader};
use std::ops::ControlFlow;
use std::ops::ControlFlow::{Break, Continue};

// What a script carries along beside its areas: the desk, how many bytes of the data and of the undo area the last accepted format
// named, and whether the line it is in has been found too long.
#[derive(Clone, Copy)]
pub struct Footing {
    pub desk: Desk,
    pub data: usize,
    pub undo: usize,
    pub long: bool,
}

// How far a run came: what it carries along, the bytes of text it is done with, the bytes of answers it wrote.
#[derive(Drop)]
pub struct Ran {
    pub footing: Footing,
    pub taken: usize,
    pub made: usize,
}

// What a line leaves beside the areas: what is carried along, and where its answer ends.
#[derive(Drop)]
struct Stepped {
    footing: Footing,
    end: usize,
}

impl Footing {
    // "Before an accepted format": nothing lent, a desk that is no desk.
    pub fn fresh() -> Footing
        ensures { result ≡ fresh_footing }
    {
        Footing {
            desk: Desk::fresh(0),
            data: 0,
            undo: 0,
            long: false,
        }
    }

    // The same, in a line that is too long or not.
    fn in_line(self, long: bool) -> Footing
        ensures { result ≡ in_line long self }
    {
        Footing { long, ..self }
    }
}

// "at most 3 of each"
const MOST: u64 = 3;

// How many bytes a format line names of an area; none where it names too many pages, since no area of 0 bytes is allowed either.
#[tactic(auto, unfolding(crate::specs::Script::named))]
fn named(pages: u64) -> usize
    ensures { result ≡ named·spec pages }
{
    if pages <= MOST {
        pages as usize * Kind::PAGE
    } else {
        0
    }
}

// As many bytes of what is lent; none where it is not so long.
#[tactic(auto, unfolding(crate::specs::Script::lent))]
fn lent(n: usize, s: &[u8]) -> usize
    ensures { result ≡ lent·spec n s.now }
{
    if n <= s.len() { n } else { 0 }
}

// A choice in a function of its own: what an `if` joins is not known at the calls behind it.
fn either(b: bool, n: usize, m: usize) -> usize
    ensures { result ≡ cond b n m }
{
    if b { n } else { m }
}

fn is_format(verb: Verb) -> bool
    ensures { result ≡ is_format verb }
{
    matches!(verb, Verb::Format)
}

// One call on the part of the areas that it is lent: a format what its line names, the others what the last accepted format named. The areas
// come as three slices, as the calls take them.
fn step(
    data: &mut [u8],
    undo: &mut [u8],
    status: &mut [u8],
    footing: Footing,
    command: Command,
    out: &mut [u8],
    at: usize,
) -> Stepped
    requires { at + longest ≤ length out.old }
    ensures { Steps (carried footing (areas «data».old undo.old status.old)) command at out.old result (areas «data».new undo.new status.new) out.new }
{
    let verb = command.verb;
    let desk = footing.desk;
    let formats = is_format(verb);
    let n = lent(either(formats, named(command.first), footing.data), data);
    let m = lent(either(formats, named(command.second), footing.undo), undo);
    let p = playing::play(
        &mut data[..n],
        &mut undo[..m],
        status,
        desk,
        command,
        out,
        at,
    );
    let left = p.desk;
    let accepted = formats & (p.code == 0);
    Stepped {
        footing: Footing {
            desk: left,
            data: either(accepted, n, footing.data),
            undo: either(accepted, m, footing.undo),
            long: false,
        },
        end: p.end,
    }
}

// The call of a line, which is none where the line has been found too long.
fn command_in(text: &[u8], at: usize, end: usize, long: bool) -> Command
    requires { (at ≤ end) × (end ≤ length text.now) }
    ensures { result ≡ cond long ill (command_of (take (end - at) (drop at text.now))) }
{
    if long {
        return line::ill_formed();
    }
    line::read_command(&text[at..end])
}

// What is left of a text behind its last newline, from `at` to `end`. Where no more comes it is an unended line; where it is too long
// already it is done with, and the line it begins is noted as too long; else it waits for what comes.
fn rest(footing: Footing, at: usize, end: usize, last: bool, out: &mut [u8], made: usize) -> Ran
    requires { (at ≤ end) × (made + longest ≤ length out.old) }
    ensures inside { (result.taken ≤ end) × (result.made ≤ length out.old) }
    ensures rests { Rests footing at (end - at) last made out.old result out.new }
{
    let waits = Ran {
        footing,
        taken: at,
        made,
    };
    if last {
        if (at == end) & !footing.long {
            return waits;
        }
        let code = u32::from(Refusal::IllFormed);
        let made = reply::plain(out, made, code);
        return Ran {
            footing: footing.in_line(false),
            taken: end,
            made,
        };
    }
    if end - at <= line::LONGEST {
        return waits;
    }
    Ran {
        footing: footing.in_line(true),
        taken: end,
        made,
    }
}

// Whether a buffer of so many bytes has room for an answer behind those written.
fn room_for(room: usize, made: usize) -> bool
    requires { made ≤ room }
    ensures { result ≡ room_for room made }
{
    room - made >= reply::LONGEST
}

// One line more: an ended line is played, and the run goes on behind it; where it is unended it is what is left of the text, and the run is done.
fn goes_on(
    data: &mut [u8],
    undo: &mut [u8],
    status: &mut [u8],
    ran: Ran,
    text: &[u8],
    line: Line,
    last: bool,
    out: &mut [u8],
) -> ControlFlow<Ran, Ran>
    requires { (line ≡ line_at text.now ran.taken) × (ran.taken ≤ length text.now) × (ran.made + longest ≤ length out.old) }
    ensures { Goes (carried ran.footing (areas «data».old undo.old status.old)) text.now line last ran.made out.old result (areas «data».new undo.new status.new) out.new }
{
    let footing = ran.footing;
    let made = ran.made;
    if line.ended {
        let command = command_in(text, line.start, line.end, footing.long);
        let stepped = step(data, undo, status, footing, command, out, made);
        return Continue(Ran {
            footing: stepped.footing,
            taken: line.behind,
            made: stepped.end,
        });
    }
    Break(rest(footing, line.start, line.end, last, out, made))
}

// Runs the lines of a text, one after the other, while the buffer has room for an answer. `last`: no more text comes behind this one.
pub fn run(
    data: &mut [u8],
    undo: &mut [u8],
    status: &mut [u8],
    footing: Footing,
    text: &[u8],
    last: bool,
    out: &mut [u8],
) -> Ran
    ensures inside { (result.taken ≤ length text.now) × (result.made ≤ length out.old) }
    ensures runs { Yields (run_rule (carried footing (areas «data».old undo.old status.old)) text.now last (length out.old)) out.old result (areas «data».new undo.new status.new) out.new }
{
    let mut reader = Reader::new(text);
    let mut ran = Ran {
        footing,
        taken: 0,
        made: 0,
    };
    while room_for(out.len(), ran.made) {
        let line = reader.next_line();
        match goes_on(data, undo, status, ran, text, line, last, out) {
            Continue(so_far) => ran = so_far,
            Break(done) => return done,
        }
    }
    ran
}
