// Shows the refusals that no script reaches, or only a very long one ("01, When the desk says no"), on areas and desks that are damaged on
// purpose. A line for each call: what is damaged, the call, the number that it answers, parted by tabs.
#![tactic(auto)]

ghost use Rattle.std.specs.Prelude.{◌<◌};

use answer::Refusal;
use chain::Found;
use desk::Desk;
use std::io;
use sweeping::Swept;
use words::{Layout, Words};

// The bodies that are written: of an insert, and of an update.
const OLD: [u8; 32] = [b'a'; 32];

const NEW: [u8; 32] = [b'b'; 32];

// Where row 0 lies: its slot at offset 48 of page 1, in it "undo_ptr 16,8" and, behind 32 bytes of metadata, the body.
const POINTER: usize = 64;

const BODY: usize = 80;

// Where its first undo entry lies: "writer (8; 0 means free), row number (4), zero (4), then a 64-byte slot copy", the copy's create first.
const WRITER: usize = 48;

const ROW: usize = 56;

const COPY: usize = 64;

// A store of one page an area, with the words of its desk.
#[derive(Drop)]
struct Store {
    data: [u8; 8192],
    undo: [u8; 8192],
    status: [u8; 8192],
    desk: Words,
}

// The calls, each answered as its own function answers it. Row 0 is the one that is read and written.
impl Store {
    // Zeros, and a desk that is none.
    fn blank() -> Store {
        Store {
            data: [0; 8192],
            undo: [0; 8192],
            status: [0; 8192],
            desk: [0; Layout::WORDS],
        }
    }

    fn format(&mut self) -> Result<(), Refusal> {
        let desk = keep::format(&mut self.data, &mut self.undo, &mut self.status)?;
        words::put_desk(&mut self.desk, &desk);
        Ok(())
    }

    fn seal(&mut self) -> Result<(), Refusal> {
        keep::seal(&mut self.data, &mut self.undo, &mut self.status, &self.desk)
    }

    fn open(&self) -> Result<Desk, Refusal> {
        keep::open(&self.data, &self.undo, &self.status)
    }

    fn begin(&mut self) -> Result<u64, Refusal> {
        turns::begin(&self.data, &self.undo, &mut self.status, &mut self.desk)
    }

    fn next(&mut self, session: u64) -> Result<(), Refusal> {
        turns::next(
            &self.data,
            &self.undo,
            &self.status,
            &mut self.desk,
            session,
        )
    }

    fn insert(&mut self, session: u64, body: &[u8]) -> Result<usize, Refusal> {
        rows::insert(
            &mut self.data,
            &self.undo,
            &self.status,
            &self.desk,
            session,
            body,
        )
    }

    fn read(&self, session: u64) -> Result<Found, Refusal> {
        rows::read(&self.data, &self.undo, &self.status, &self.desk, session, 0)
    }

    fn update(&mut self, session: u64, body: &[u8]) -> Result<(), Refusal> {
        rows::update(
            &mut self.data,
            &mut self.undo,
            &self.status,
            &mut self.desk,
            session,
            0,
            body,
        )
    }

    fn delete(&mut self, session: u64) -> Result<(), Refusal> {
        rows::delete(
            &mut self.data,
            &self.undo,
            &self.status,
            &mut self.desk,
            session,
            0,
        )
    }

    fn commit(&mut self, session: u64) -> Result<(), Refusal> {
        turns::commit(
            &self.data,
            &self.undo,
            &mut self.status,
            &mut self.desk,
            session,
        )
    }

    fn withdraw(&mut self, session: u64) -> Result<(), Refusal> {
        undoing::withdraw(
            &mut self.data,
            &mut self.undo,
            &mut self.status,
            &mut self.desk,
            session,
        )
    }

    fn sweep(&mut self, first: usize) -> Result<Swept, Refusal> {
        sweeping::sweep(
            &mut self.data,
            &mut self.undo,
            &self.status,
            &self.desk,
            first,
            127,
        )
    }
}

// The stores that are damaged. No call that makes one is refused; where one were, the lines below it would tell.
impl Store {
    // A fresh store in which session 1 is open.
    fn begun() -> Store {
        let mut store = Store::blank();
        let _formatted = store.format();
        let _begun = store.begin();
        store
    }

    // A store in which session 1 has inserted row 0 and committed.
    fn stocked() -> Store {
        let mut store = Store::begun();
        let _inserted = store.insert(1, &OLD);
        let _committed = store.commit(1);
        store
    }

    // The stocked store in which sessions 2 and 3 are open and 2 has updated row 0: its slot points to the entry at offset 48 of undo page
    // 1, whose copy is what 3 reads.
    fn updated() -> Store {
        let mut store = Store::stocked();
        let _second = store.begin();
        let _third = store.begin();
        let _updated = store.update(2, &NEW);
        store
    }
}

// A line: what is damaged, the call, the number.
fn line<T>(
    rt: &impl Print,
    what: &str,
    call: &str,
    answered: &Result<T, Refusal>,
) -> io::Result<()> {
    println!(rt; "{what}\t{call}\t{}", answer::code(answered))
}

// 1: "an area's length isn't allowed". A data area that lacks a byte of its page, an undo area of half a page, a status area of two.
fn wrong_lengths(rt: &impl Print) -> io::Result<()> {
    let mut page = [0; 8192];
    let mut other = [0; 8192];
    let mut short = [0; 8191];
    let mut half = [0; 4096];
    let what = "data of 8,191 bytes";
    line(
        rt,
        what,
        "format",
        &keep::format(&mut short, &mut page, &mut other),
    )?;
    let what = "undo of 4,096 bytes";
    line(
        rt,
        what,
        "format",
        &keep::format(&mut page, &mut half, &mut other),
    )
}

fn two_status_pages(rt: &impl Print) -> io::Result<()> {
    let mut data = [0; 8192];
    let mut undo = [0; 8192];
    let mut status = [0; 16384];
    let desk = words::words_of(Desk::fresh(Desk::FIRST_NUMBER));
    let what = "status of 16,384 bytes";
    line(rt, what, "open", &keep::open(&data, &undo, &status))?;
    line(
        rt,
        what,
        "seal",
        &keep::seal(&mut data, &mut undo, &mut status, &desk),
    )
}

// The words of a desk with these two sessions at its first places.
fn desk_of(next: u32, first: u32, second: u32) -> Words {
    let mut desk = words::words_of(Desk::fresh(next));
    desk[Layout::NUMBERS] = first;
    desk[Layout::NUMBERS + 1] = second;
    desk
}

// The words of a desk with session 1 alone, and these marks at its place and at the unused one behind it.
fn marked(first: u32, second: u32) -> Words {
    let mut desk = desk_of(2, 1, 0);
    desk[Layout::MARKS] = first;
    desk[Layout::MARKS + 1] = second;
    desk
}

// A call of each kind on a desk that is not sound. Each is refused and so alters nothing, and the next finds the same store and desk.
fn on_desk(rt: &impl Print, what: &str, desk: Words) -> io::Result<()> {
    let mut store = Store::stocked();
    store.desk = desk;
    line(rt, what, "begin", &store.begin())?;
    line(rt, what, "seal", &store.seal())?;
    line(rt, what, "sweep 0 127", &store.sweep(0))?;
    line(rt, what, "read 1 0", &store.read(1))
}

// 2: "desk unsound". "The desk holds the next number (1 to 32,576) and at most 16 open sessions in ascending order. Each has its number
// (below next)". Its mark says whether it is spoiled or not, and that of an unused place is 0 ("02, T-07").
fn unsound_desks(rt: &impl Print) -> io::Result<()> {
    on_desk(rt, "next is 0", desk_of(0, 0, 0))?;
    on_desk(rt, "next is 32,577", desk_of(32577, 0, 0))?;
    on_desk(rt, "session 2 before session 1", desk_of(3, 2, 1))?;
    on_desk(rt, "session 1 twice", desk_of(3, 1, 1))?;
    on_desk(rt, "session 3 where next is 3", desk_of(3, 1, 3))?;
    on_desk(rt, "an unused place before session 1", desk_of(3, 0, 1))?;
    on_desk(rt, "a mark of 2", marked(2, 0))?;
    on_desk(rt, "an unused place with a mark", marked(0, 1))
}

// A store opened before it is sealed, and behind the seal; then with a byte of row 0's body changed, and with the byte as it was.
fn changed_data(rt: &impl Print, store: &mut Store) -> io::Result<()> {
    line(rt, "not sealed after a change", "open", &store.open())?;
    line(rt, "nothing", "seal", &store.seal())?;
    line(rt, "nothing", "open", &store.open())?;
    store.data[BODY] = b'c';
    line(rt, "a byte of row 0's body", "open", &store.open())?;
    store.data[BODY] = b'a';
    line(rt, "the byte is put back", "open", &store.open())
}

// With the last byte of the undo page changed, which no entry holds; and with number 1 withdrawn, which was committed: its two bits lie in
// byte 48, shifted by 2.
fn changed_others(rt: &impl Print, store: &mut Store) -> io::Result<()> {
    store.undo[8191] = 1;
    line(rt, "the last byte of the undo page", "open", &store.open())?;
    store.undo[8191] = 0;
    store.status[48] = 8;
    line(rt, "the status of number 1", "open", &store.open())
}

// A checksum that fits does not save what is wrong behind it: a page's item_count, which is in bytes 38 and 39.
fn sealed_count(rt: &impl Print) -> io::Result<()> {
    let mut store = Store::stocked();
    store.data[38] = 2;
    let what = "item_count 2 for 1 row";
    line(rt, what, "seal", &store.seal())?;
    line(rt, what, "open", &store.open())
}

// Nor does it save a number in work: session 1 is open, and the desk that seals does not know it.
fn sealed_in_work(rt: &impl Print) -> io::Result<()> {
    let mut store = Store::begun();
    store.desk = words::words_of(Desk::fresh(2));
    let what = "a desk without session 1";
    line(rt, what, "seal", &store.seal())?;
    line(rt, what, "open", &store.open())
}

// 3: "a header field other than txn_id (checksum and item_count included) is wrong, .. or a number from 1 to [the highest] is neither 01
// nor 10".
fn wrong_pages(rt: &impl Print) -> io::Result<()> {
    let mut store = Store::stocked();
    changed_data(rt, &mut store)?;
    changed_others(rt, &mut store)?;
    sealed_count(rt)?;
    sealed_in_work(rt)
}

// 5: "body not 32 bytes". A script's body always has 32.
fn wrong_inserts(rt: &impl Print) -> io::Result<()> {
    let mut store = Store::begun();
    line(
        rt,
        "a body of 31 bytes",
        "insert 1",
        &store.insert(1, &[0; 31]),
    )?;
    line(
        rt,
        "a body of 33 bytes",
        "insert 1",
        &store.insert(1, &[0; 33]),
    )
}

// The lowest number first: another has updated the row, and yet the answer is 5 and not 9.
fn wrong_update(rt: &impl Print) -> io::Result<()> {
    let mut store = Store::updated();
    line(
        rt,
        "a body of 31 bytes",
        "update 3 0",
        &store.update(3, &[0; 31]),
    )
}

// The five calls that follow a chain, on one damaged store: each is refused and so alters nothing.
fn follow(rt: &impl Print, what: &str, store: &mut Store) -> io::Result<()> {
    line(rt, what, "read 3 0", &store.read(3))?;
    line(rt, what, "update 3 0", &store.update(3, &NEW))?;
    line(rt, what, "delete 3 0", &store.delete(3))?;
    line(rt, what, "withdraw 2", &store.withdraw(2))?;
    line(rt, what, "sweep 0 127", &store.sweep(0))
}

// A byte of the pointer in row 0's slot. Whole, it is 4 × 2^56 + 1 × 2^24 + 48 × 2^8: the low byte 0, then 48, 0, the page 1, and on top 4.
fn broken_slot(rt: &impl Print, what: &str, byte: usize, value: u8) -> io::Result<()>
    requires { byte < 8 }
{
    let mut store = Store::updated();
    store.data[POINTER + byte] = value;
    follow(rt, what, &mut store)
}

// A byte of the entry that the slot points to.
fn broken_entry(rt: &impl Print, what: &str, at: usize, value: u8) -> io::Result<()>
    requires { at < 8192 }
{
    let mut store = Store::updated();
    store.undo[at] = value;
    follow(rt, what, &mut store)
}

// Makes the copy one of session 2's and its pointer, 16 bytes on, one to its own entry: an entry already passed.
fn ring(rt: &impl Print) -> io::Result<()> {
    let mut store = Store::updated();
    store.undo[COPY] = 2;
    store.undo[COPY + 17] = 48;
    store.undo[COPY + 19] = 1;
    store.undo[COPY + 23] = 4;
    follow(rt, "the entry leads to itself", &mut store)
}

// Whom a break does not meet: session 2 in its next statement, which finds its own version before it; a sweep of other rows; a commit.
fn unmet(rt: &impl Print) -> io::Result<()> {
    let mut store = Store::updated();
    store.data[POINTER + 7] = 5;
    let what = "pointer: top byte 5";
    let _moved = store.next(2);
    line(rt, what, "next 2, read 2 0", &store.read(2))?;
    line(rt, what, "sweep 1 127", &store.sweep(1))?;
    line(rt, what, "commit 2", &store.commit(2))
}

// 6: "A chain is broken at a pointer that isn't well formed, leads outside the area or between entries, leads to a free entry, one of
// another row or one whose copy has create 0, or leads to an entry already passed."
fn broken_chains(rt: &impl Print) -> io::Result<()> {
    broken_slot(rt, "pointer: top byte 5", 7, 5)?;
    broken_slot(rt, "pointer: low byte 1", 0, 1)?;
    broken_slot(rt, "pointer: page 0", 3, 0)?;
    broken_slot(rt, "pointer: page 2 of 1", 3, 2)?;
    broken_slot(rt, "pointer: offset 0, in the header", 1, 0)?;
    broken_slot(rt, "pointer: offset 49, between entries", 1, 49)?;
    broken_slot(rt, "pointer: offset 128, a free entry", 1, 128)?;
    broken_entry(rt, "entry: writer 0", WRITER, 0)?;
    broken_entry(rt, "entry: row 1", ROW, 1)?;
    broken_entry(rt, "entry: create 0 in the copy", COPY, 0)?;
    ring(rt)?;
    unmet(rt)
}

// 13: "next is 32,576". The number before is the last that is handed out.
fn numbers_used(rt: &impl Print) -> io::Result<()> {
    let mut store = Store::blank();
    let _formatted = store.format();
    store.desk = words::words_of(Desk::fresh(32575));
    line(rt, "next is 32,575", "begin", &store.begin())?;
    line(rt, "next is 32,576", "begin", &store.begin())
}

// 14: "statement is 65,535". P11: "statement 65,534 moves on"; P12: "65,535 is refused".
fn statements_used(rt: &impl Print) -> io::Result<()> {
    let mut store = Store::begun();
    store.desk[Layout::STATEMENTS] = 65534;
    line(rt, "statement is 65,534", "next 1", &store.next(1))?;
    line(rt, "statement is 65,535", "next 1", &store.next(1))
}

fn main(rt: HostRuntime) -> io::Result<()> {
    wrong_lengths(&rt)?;
    two_status_pages(&rt)?;
    unsound_desks(&rt)?;
    wrong_pages(&rt)?;
    wrong_inserts(&rt)?;
    wrong_update(&rt)?;
    broken_chains(&rt)?;
    numbers_used(&rt)?;
    statements_used(&rt)
}
