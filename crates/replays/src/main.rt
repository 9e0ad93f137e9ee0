// Scripts with their answers: each is performed again, and what it answers is held to what is written beside it.
#![tactic(auto)]

use std::alloc::{AllocError, AllocFailed};
use std::process::ExitCode;
use std::{env, fs, io};

// Kept: main prints the failure by Debug, and a derived Memory would print what it holds; the other program's first case prints another name.
#[derive(Debug, Drop)]
enum Failure {
    Io(io::Error),
    Memory,
}

impl From<io::Error> for Failure {
    fn from(why: io::Error) -> Failure {
        Failure::Io(why)
    }
}

impl From<AllocError> for Failure {
    fn from(_e: AllocError) -> Failure {
        Failure::Memory
    }
}

impl<T: Drop> From<AllocFailed<T>> for Failure {
    fn from(_e: AllocFailed<T>) -> Failure {
        Failure::Memory
    }
}

// Whether a script answers as it is written; where it does not, the first line that differs is printed.
fn replay(rt: &HostRuntime, name: &str) -> Result<bool, Failure> {
    let heap = rt.alloc();
    let script = fs::read(rt, format!(in heap; "{name}.script")?.as_str())?;
    let expected = fs::read(rt, format!(in heap; "{name}.expected")?.as_str())?;
    let answers = scripts::report(heap, script.as_slice())?;
    if answers == expected {
        return Ok(true);
    }
    let line = first_difference(answers.as_slice(), expected.as_slice());
    println!(rt; "{name}: line {line} of the answers differs")?;
    Ok(false)
}

// The number of the line, from 1, in which two texts first differ.
fn first_difference(a: &[u8], b: &[u8]) -> usize {
    let shared = &a[..text::shared_len(a, b)];
    let ended = shared.iter().filter(|byte| **byte == b'\n').count();
    ended.saturating_add(1)
}

fn main(rt: HostRuntime) -> Result<ExitCode, Failure> {
    let mut scripts: u32 = 0;
    let mut wrong: u32 = 0;
    for name in env::args(&rt)?.skip(1) {
        scripts = scripts.saturating_add(1);
        if !replay(&rt, name.as_str())? {
            wrong = wrong.saturating_add(1);
        }
    }
    println!(rt; "{scripts} scripts, {wrong} with other answers")?;
    if wrong == 0 {
        Ok(ExitCode::SUCCESS)
    } else {
        Ok(ExitCode::FAILURE)
    }
}
