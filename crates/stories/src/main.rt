// Runs the scripts that its arguments name, each on a store of its own, and writes their answers ("01, The script and one whole run").
// Above the answers of a script stands a line with its name. docs/STORIES.md tells what each is to show.
#![tactic(auto)]

use std::env::{Env, FillError};
use std::fmt::Display;
use std::fs::File;
use std::io;

// Says on standard error what could not be had, and why; that it cannot be said either stops nothing.
fn fail(rt: &HostRuntime, what: &str, why: impl Display + Drop) {
    let _said = eprintln!(rt; "{what}: {why}");
}

// The line above a story's answers.
fn title(rt: &HostRuntime, name: &str) -> io::Result<()> {
    println!(rt; "# {name}")
}

// Runs the script of one file; one that cannot be read is named on standard error, and has no title.
fn play(rt: &HostRuntime, name: &str) -> io::Result<()> {
    match File::open(rt, name) {
        Ok(mut script) => {
            title(rt, name)?;
            feeding::feed(rt, &mut script, &mut rt.stdout());
        }
        Err(e) => fail(rt, name, e),
    }
    Ok(())
}

// Tells the story that an argument names, by its bytes. The name of a file is text.
fn tell(rt: &HostRuntime, name: &[u8]) -> io::Result<()> {
    match str::from_utf8(name) {
        Ok(name) => play(rt, name)?,
        Err(e) => fail(rt, "stories: the name of a script", e),
    }
    Ok(())
}

// Argument 0 is the program's own name.
fn tell_all(rt: &HostRuntime) -> io::Result<()> {
    let mut name = [0u8; 4096];
    for i in 1..usize::MAX {
        match rt.arg(i, &mut name) {
            Ok(n) => tell(rt, &name[..n])?,
            Err(FillError::TooLong) => {
                fail(rt, "stories: the name of a script", "File name too long");
            }
            Err(FillError::NotPresent) => break,
        }
    }
    Ok(())
}

fn main(rt: HostRuntime) -> io::Result<()> {
    tell_all(&rt)
}
