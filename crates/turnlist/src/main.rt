// Lists the turns that the rules allow, and makes turns.
#![tactic(auto)]

mod help;
mod session;
mod text;
#[cfg(test)]
mod trials;

use anyhow::{anyhow, ensure};
use help::HELP;
use session::Session;
use std::io::{Read, Write};
use std::process::ExitCode;
use std::{env, fs};

// The file that the arguments name, or none for standard input.
fn named(rt: &HostRuntime) -> anyhow::Result<Option<String>> {
    let mut words = env::args(rt)?;
    let _ = words.next();
    let first = words.next();
    ensure!(
        words.next().is_none(),
        "one file at most; see turnlist --help"
    );
    Ok(first)
}

// The bytes of the named file, or of standard input.
fn input(rt: &HostRuntime, name: Option<String>) -> anyhow::Result<Vec<u8>> {
    let Some(path) = name else {
        let mut bytes = Vec::new(rt.alloc());
        rt.stdin().read_to_end(&mut bytes)?;
        return Ok(bytes);
    };
    fs::read(rt, path.as_str()).map_err(|error| anyhow!("cannot read {path}: {error}"))
}

// Answers each line; bytes behind the last line end are a line too.
fn answers(rt: &HostRuntime, bytes: &[u8]) -> anyhow::Result<Session> {
    let mut session = Session::new(rt.alloc());
    for (before, line) in bytes.split_inclusive(|byte| *byte == b'\n').enumerate() {
        let line = line.strip_suffix(b"\n").unwrap_or(line);
        session.answer(rt.alloc(), line, before.saturating_add(1))?;
    }
    Ok(session)
}

fn run(rt: &HostRuntime) -> anyhow::Result<()> {
    let name = named(rt)?;
    if name.as_ref().is_some_and(|word| word.as_str() == "--help") {
        rt.stdout().write_all(HELP.as_bytes())?;
        return Ok(());
    }
    let bytes = input(rt, name)?;
    let session = answers(rt, bytes.as_slice())?;
    rt.stdout().write_all(session.out.as_bytes())?;
    ensure!(
        !session.faulty,
        "some line had no known form, see the E lines"
    );
    Ok(())
}

fn main(rt: HostRuntime) -> ExitCode {
    match run(&rt) {
        Ok(()) => ExitCode::SUCCESS,
        Err(error) => {
            // Where even standard error takes nothing, the status alone is left to tell.
            let _ = eprintln!(rt; "turnlist: {error}");
            ExitCode::FAILURE
        }
    }
}
