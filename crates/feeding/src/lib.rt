// Feeds a script from a reader to the store, and its answers to a writer, as they come ("01, The script and one whole run"). It holds no
// rule: which call a line is, what it does and what it answers is `script`'s.
// The areas are lent apart, as C lends them: a call writes some of them and only reads others.
#![tactic(auto)]

ghost use Rattle.std.specs.Prelude.{◌≡◌, true, ◌++◌, ◌+◌, ◌-◌, ◌^◌, ◌≤◌, ◌<◌, length, take, drop, MatchResult, Some, None};
ghost use Rattle.kind.specs.Areas.{areas};
ghost use Rattle.line.specs.Line.{longest as longest_line};
ghost use Rattle.reply.specs.Reply.{longest as longest_answer};
ghost use Rattle.script.specs.Script.{carried};
ghost use Rattle.feeding.specs.Feeding.{filled_by, Fills, stand, Serves, Rounds};

use script::Footing;
use std::io;
use std::io::{Eprint, Read, Write};

// What is carried from one reading to the next: the script's footing, how much text that was not taken stands at the front of the buffer, and
// whether to go on, which says nothing of the other two.
#[derive(Drop)]
struct Fed {
    footing: Footing,
    kept: usize,
    more: bool,
}

// What a reading gave: where the text ends now, and whether no more comes.
#[derive(Drop)]
struct Filled {
    end: usize,
    last: bool,
}

// Moves what was not taken to the front.
fn keep_rest(text: &mut [u8], from: usize, to: usize)
    requires { (from ≤ to) × (to ≤ length text.old) }
    ensures { text.new ≡ take (to - from) (drop from text.old) ++ drop (to - from) text.old }
{
    text.copy_within(from..to, 0);
}

// What a reading or a writing came to; one that failed is named on standard error, with the system's reason.
fn told<T: Drop>(errors: &impl Eprint, what: &str, done: io::Result<T>) -> Option<T>
    ensures { MatchResult done (λ got. result ≡ Some got) (λ _. result ≡ None) }
{
    match done {
        Ok(got) => Some(got),
        Err(e) => {
            let _named = eprintln!(errors; "chirimok: {what}: {e}");
            None
        }
    }
}

// Writes answers, to the last.
fn write_out<W: Write>(answers: &[u8], output: &mut W) -> io::Result<()> {
    output.write_all(answers)?;
    output.flush()
}

// Writes answers, and says so where it cannot.
fn say<W: Write>(errors: &impl Eprint, answers: &[u8], output: &mut W) -> bool {
    told(errors, "the answers", write_out(answers, output)).is_some()
}

// Answers every line of a text that is whole, and writes each answer. What comes back as kept was not taken.
fn serve<W: Write>(
    errors: &impl Eprint,
    data: &mut [u8],
    undo: &mut [u8],
    status: &mut [u8],
    footing: Footing,
    text: &[u8],
    last: bool,
    out: &mut [u8],
    output: &mut W,
) -> Fed
    requires { longest_answer ≤ length out.old }
    ensures { Serves last (length out.old) (stand (carried footing (areas «data».old undo.old status.old)) text.now) result (areas «data».new undo.new status.new) }
{
    let mut s = footing;
    let mut at = 0;
    loop {
        let r = script::run(data, undo, status, s, &text[at..], last, out);
        s = r.footing;
        let made = r.made;
        let taken = r.taken;
        let said = say(errors, &out[..made], output);
        at += taken;
        if !said | (taken == 0) {
            return Fed {
                footing: s,
                kept: text.len() - at,
                more: said & !last,
            };
        }
    }
}

// What a reading gave that answered `got`, into the room behind what was kept. One that failed gave nothing.
#[tactic(auto, unfolding(crate::specs::Feeding::filled_by))]
fn gave(kept: usize, got: Option<usize>, room: &[u8]) -> Option<Filled>
    requires { kept + length room.now < 2 ^ 64 }
    ensures { result ≡ filled_by kept got (length room.now) }
{
    let n = got?.min(room.len());
    Some(Filled {
        end: kept + n,
        last: n == 0,
    })
}

// Reads once, behind what was kept, and answers how much text there is then, and whether that was all.
fn fill<R: Read>(
    errors: &impl Eprint,
    text: &mut [u8],
    kept: usize,
    input: &mut R,
) -> Option<Filled>
    requires { kept < length text.old }
    ensures { Fills kept text.old text.new result }
{
    let read = input.read(&mut text[kept..]);
    let got = told(errors, "the script", read);
    gave(kept, got, &text[kept..])
}

// Reads once, and answers what is there.
fn round<R: Read, W: Write>(
    errors: &impl Eprint,
    data: &mut [u8],
    undo: &mut [u8],
    status: &mut [u8],
    footing: Footing,
    text: &mut [u8],
    kept: usize,
    out: &mut [u8],
    input: &mut R,
    output: &mut W,
) -> Fed
    requires { (kept < length text.old) × (longest_line < length text.old) × (longest_answer ≤ length out.old) }
    ensures rounds { Rounds (carried footing (areas «data».old undo.old status.old)) kept text.old (length out.old) result (areas «data».new undo.new status.new) text.new }
    ensures kept_le_longest_line { result.more ≡ true → result.kept ≤ longest_line }
{
    let Some(filled) = fill(errors, text, kept, input) else {
        return Fed {
            footing,
            kept,
            more: false,
        };
    };
    let end = filled.end;
    let f = serve(
        errors,
        data,
        undo,
        status,
        footing,
        &text[..end],
        filled.last,
        out,
        output,
    );
    keep_rest(text, end - f.kept, end);
    f
}

// Runs the script of `input` to its end. A person at a terminal has the answer to each line before the next is read. A proved loop has to
// end, and nothing says that an input does: so it counts its readings, to a number that no run uses up.
pub fn feed<R: Read, W: Write>(errors: &impl Eprint, input: &mut R, output: &mut W) {
    let mut data = [0u8; 24576];
    let mut undo = [0u8; 24576];
    let mut status = [0u8; 8192];
    let mut text = [0u8; 65536];
    let mut out = [0u8; 65536];
    let mut s = Footing::fresh();
    let mut kept = 0;
    for _ in 0..u64::MAX {
        let f = round(
            errors,
            &mut data,
            &mut undo,
            &mut status,
            s,
            &mut text,
            kept,
            &mut out,
            input,
            output,
        );
        if !f.more {
            return;
        }
        s = f.footing;
        kept = f.kept;
    }
}
