// The desk as words of 32 bits, as a station's own program holds it. Where each column lies among them is said here, and nowhere above:
// a call that leaves the desk as it is is lent the words, and asks of them what it needs; a Desk is made of them for the calls that
// change it.
#![tactic(auto)]

ghost use Rattle.std.specs.Prelude.{◌≡◌, ◌+◌, ◌<◌, ◌≤◌, length, get_or, take, drop};
ghost use Rattle.std.proofs.lemmas.List.Edits.{sets};
ghost use Rattle.ground.specs.Range.{found_below};
ghost use Rattle.columns.specs.Limits.{sessions};
ghost use Rattle.columns.specs.Columns.{used_of};
ghost use Rattle.places.specs.Open.{open_count, place_in};
ghost use Rattle.desk.specs.Sound.{sound};
ghost use Rattle.desk.specs.Turns.{view_at, spoiled_at, spoiled, mark as mark·spec};
ghost use Rattle.words.specs.Words.{all_words, desk_of, desk_in, words_of};

use columns::{LentDesk, Limits};
use desk::Desk;

// Where the columns begin among the words: the next number is the first, and behind it come the numbers, the statements,
// the marks and the lists.
#[derive(Drop)]
pub struct Layout;

impl Layout {
    pub const NUMBERS: usize = 1;

    pub const STATEMENTS: usize = Layout::NUMBERS + Limits::SESSIONS;

    pub const MARKS: usize = Layout::STATEMENTS + Limits::SESSIONS;

    pub const LISTS: usize = Layout::MARKS + Limits::SESSIONS;
    // How many words there are.
    pub const WORDS: usize = Layout::LISTS + Limits::PLACES;
}

pub type Words = [u32; Layout::WORDS];

// The N words from `at` on, lent where they lie.
fn part<const N: usize>(words: &Words, at: usize) -> &[u32; N]
    requires { at + N ≤ all_words }
    ensures { result.now ≡ take N (drop at words.now) }
{
    let end = at + N;
    words[at..end].as_array().unwrap()
}

// The desk that the words say, lent by its columns.
fn lent(words: &Words) -> LentDesk
    ensures { desk_of result.next result.numbers.now result.statements.now result.marks.now result.lists.now ≡ desk_in words.now }
{
    LentDesk {
        next: words[0],
        numbers: part(words, Layout::NUMBERS),
        statements: part(words, Layout::STATEMENTS),
        marks: part(words, Layout::MARKS),
        lists: part(words, Layout::LISTS),
    }
}

// Whether the desk that the words say is sound.
pub fn is_sound(words: &Words) -> bool
    ensures { result ≡ sound (desk_in words.now) }
{
    desk::columns_sound(lent(words))
}

// The number that the next session gets.
pub fn next(words: &Words) -> u32
    ensures { result ≡ (desk_in words.now).next }
{
    words[0]
}

// How many sessions are open.
pub fn open_count(words: &Words) -> usize
    ensures { (result ≡ open_count (desk_in words.now).numbers) × (result ≤ sessions) }
{
    places::open_count(lent(words).numbers)
}

// The place at which session x stands, if it stands at one.
pub fn find(words: &Words, x: u64) -> Option<usize>
    ensures { result ≡ found_below sessions (place_in x (desk_in words.now).numbers) }
{
    places::find(lent(words).numbers, x)
}

// The statement of the session at place k.
pub fn statement(words: &Words, k: usize) -> u32
    requires { k < sessions }
    ensures { result ≡ get_or (desk_in words.now).statements k 0 }
{
    words[Layout::STATEMENTS + k]
}

// Whether the session at place k is spoiled.
pub fn is_spoiled(words: &Words, k: usize) -> bool
    requires { k < sessions }
    ensures { result ≡ spoiled_at k (desk_in words.now) }
{
    words[Layout::MARKS + k] == Limits::SPOILED
}

// "the desk marks that session spoiled": the one at place k. This one word changes.
pub fn spoil(words: &mut Words, k: usize)
    requires { k < sessions }
    ensures { desk_in words.new ≡ spoiled k (desk_in words.old) }
{
    words[Layout::MARKS + k] = Limits::SPOILED;
}

// The numbers open when the session at place k began, lent where they lie: the used places of its list, since in a sound desk an
// unused one has nothing behind it.
pub fn list(words: &Words, k: usize) -> &[u32]
    requires { k < sessions }
    ensures { result.now ≡ used_of (view_at k (desk_in words.now)).list }
{
    let list: &[u32; Limits::MEMBERS] = part(words, Layout::LISTS + k * Limits::MEMBERS);
    let used = list.iter().position(|member| *member == 0);
    &list[..used.unwrap_or(Limits::MEMBERS)]
}

// The mark of the desk that the words say.
pub fn mark(words: &Words) -> u32
    ensures { result ≡ mark·spec (desk_in words.now) }
{
    let LentDesk {
        next,
        numbers,
        lists,
        ..
    } = lent(words);
    columns::mark(next, numbers, lists)
}

// The desk that the words say.
pub fn desk_in(words: &Words) -> Desk
    ensures { result ≡ desk_in words.now }
{
    let LentDesk {
        next,
        numbers,
        statements,
        marks,
        lists,
    } = lent(words);
    Desk {
        next,
        numbers: *numbers,
        statements: *statements,
        marks: *marks,
        lists: *lists,
    }
}

// Stores a part of the desk from `at` on. By `copy_from_slice` the archive would need `memmove` of whoever links it.
fn put_part(words: &mut Words, at: usize, part: &[u32])
    requires { at + length part.now ≤ all_words }
    ensures { words.new ≡ sets words.old at part.now }
{
    for i in 0..part.len() {
        words[at + i] = part[i];
    }
}

// Writes a desk as words, which say that desk.
pub fn put_desk(words: &mut Words, desk: &Desk)
    ensures { (words.new ≡ words_of desk.now) × (desk_in words.new ≡ desk.now) }
{
    words[0] = desk.next;
    put_part(words, Layout::NUMBERS, &desk.numbers);
    put_part(words, Layout::STATEMENTS, &desk.statements);
    put_part(words, Layout::MARKS, &desk.marks);
    put_part(words, Layout::LISTS, &desk.lists);
}

// A desk's words. No From says it: the words are the array that the C interface lends, and no type of this crate.
pub fn words_of(desk: Desk) -> Words
    ensures { (result ≡ words_of desk) × (desk_in result ≡ desk) }
{
    let mut words = [0; Layout::WORDS];
    put_desk(&mut words, &desk);
    words
}
