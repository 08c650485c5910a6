// Plays the conflict cases of "01, When the desk says no" and "02, T-07", and the gauge pieces P5 to P8, on a store of one page an area, each
// on a freshly formatted one. A line for each call: its name, the session and the row, a tab, then the number and the values it answers.
#![tactic(auto)]

use answer::Refusal;
use std::io;
use words::{Layout, Words};

// The bodies that are written: of an insert, and of an update.
const OLD: [u8; 32] = [b'a'; 32];

const NEW: [u8; 32] = [b'b'; 32];

// A store of one page an area, with the words of its desk. `damaged` has one of its own: a crate for both would be public functions.
#[derive(Drop)]
struct Store {
    data: [u8; 8192],
    undo: [u8; 8192],
    status: [u8; 8192],
    desk: Words,
}

impl Store {
    // A store of zeros, not formatted yet.
    fn blank() -> Store {
        Store {
            data: [0; 8192],
            undo: [0; 8192],
            status: [0; 8192],
            desk: [0; Layout::WORDS],
        }
    }

    // Formats it, whatever the case before has left in it.
    fn format(&mut self) {
        if let Ok(desk) = keep::format(&mut self.data, &mut self.undo, &mut self.status) {
            words::put_desk(&mut self.desk, &desk);
        }
    }

    // Row 0, read by session s: the number, the versions looked at, and the body, which a refusal leaves out.
    fn read(&self, rt: &impl Print, s: u64) -> io::Result<()> {
        let read = rows::read(&self.data, &self.undo, &self.status, &self.desk, s, 0);
        print!(rt; "read {s} 0\t{}", answer::code(&read))?;
        match read {
            Ok(found) => {
                print!(rt; " {} ", found.looked)?;
                rt.write_all(chain::body(&self.data, &self.undo, found.place))?;
            }
            Err(_) => print!(rt; " 0 ")?,
        }
        println!(rt)
    }

    // A row, made by session s.
    fn insert(&mut self, rt: &impl Print, s: u64) -> io::Result<()> {
        let inserted = rows::insert(
            &mut self.data,
            &self.undo,
            &self.status,
            &self.desk,
            s,
            &OLD,
        );
        let code = answer::code(&inserted);
        println!(rt; "insert {s}\t{code} {}", inserted.unwrap_or(0))
    }

    // One call of session s, by its first letter.
    fn play(&mut self, rt: &impl Print, letter: u8, s: u64) -> io::Result<()> {
        let Store {
            data,
            undo,
            status,
            desk,
        } = self;
        match letter {
            b'b' => {
                let begun = turns::begin(data, undo, status, desk);
                let code = answer::code(&begun);
                println!(rt; "begin\t{code} {}", begun.unwrap_or(0))
            }
            b'n' => said(rt, "next", s, "", &turns::next(data, undo, status, desk, s)),
            b'c' => said(
                rt,
                "commit",
                s,
                "",
                &turns::commit(data, undo, status, desk, s),
            ),
            b'i' => self.insert(rt, s),
            b'u' => {
                let updated = rows::update(data, undo, status, desk, s, 0, &NEW);
                said(rt, "update", s, " 0", &updated)
            }
            b'd' => {
                let deleted = rows::delete(data, undo, status, desk, s, 0);
                said(rt, "delete", s, " 0", &deleted)
            }
            _ => self.read(rt, s),
        }
    }
}

// A line that says the number alone: the call, its session, and the row where it has one.
fn said(
    rt: &impl Print,
    call: &str,
    s: u64,
    row: &str,
    answered: &Result<(), Refusal>,
) -> io::Result<()> {
    println!(rt; "{call} {s}{row}\t{}", answer::code(answered))
}

// A case on a store that is formatted for it: its title, and its calls, each a letter and the session's digit.
fn case(rt: &impl Print, store: &mut Store, name: &str, calls: &[u8]) -> io::Result<()> {
    println!(rt; "# {name}")?;
    store.format();
    for call in calls.chunks_exact(2) {
        store.play(rt, call[0], (call[1] % 16) as u64)?;
    }
    Ok(())
}

// A session's own writes. P5: "own insert isn't there in its own statement", so its update answers 7. P6: "it is there in the next".
// P7: "own delete still shows in its statement"; a second one is 8. P8: "a second update in one statement: 8"; in the next it goes on.
fn own_writes(rt: &impl Print) -> io::Result<()> {
    let mut store = Store::blank();
    case(rt, &mut store, "P5, P6: an own insert", b"b1i1r1u1n1r1u1")?;
    case(rt, &mut store, "P7: an own delete", b"b1i1c1b2d2r2d2n2r2d2")?;
    case(rt, &mut store, "P8: an own update", b"b1i1c1b2u2u2r2n2u2r2")
}

// Another session's. "Another expirer: 10 if committed, else 9"; "creator .. seen: go on; otherwise 10 if committed, else 9". The expirer is
// looked at first: the creator committed after session 3 began, the expirer is in work, so 9. After its 10 session 3 may only read and
// withdraw: "insert, update, delete, next and commit answer 18" ("02, T-07").
fn other_writes(rt: &impl Print) -> io::Result<()> {
    let mut store = Store::blank();
    case(
        rt,
        &mut store,
        "9, 10: another's delete",
        b"b1i1c1b2b3d2d3c2u3r3",
    )?;
    case(
        rt,
        &mut store,
        "9, 10, 18: another's update",
        b"b1i1c1b2b3u2u3c2d3n3i3u3d3c3r3b4u4",
    )?;
    case(
        rt,
        &mut store,
        "9: the expirer before the creator",
        b"b1i1c1b2b3u2c2b4d4d3",
    )
}

fn main(rt: HostRuntime) -> io::Result<()> {
    own_writes(&rt)?;
    other_writes(&rt)
}
