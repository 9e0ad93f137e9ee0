// Runs a file of vectors: each line is a call, its words, `=` and the answer that it must give.
#![tactic(auto)]

mod calls;
mod words;

use calls::{answer, spelled};
use std::alloc::{AllocError, AllocFailed, Global};
use std::io;
use std::process::ExitCode;
use std::str::Split;
use words::decoded;

// Kept: main prints the failure by Debug, and a derived Memory would print what it holds; the other program's first case prints another name.
#[derive(Debug, Drop)]
enum Failure {
    Input(io::Error),
    Memory,
}

impl From<io::Error> for Failure {
    fn from(why: io::Error) -> Failure {
        Failure::Input(why)
    }
}

impl From<AllocError> for Failure {
    fn from(_e: AllocError) -> Failure {
        Failure::Memory
    }
}

impl<T: Drop> From<AllocFailed<T>> for Failure {
    fn from(_e: AllocFailed<T>) -> Failure {
        Failure::Memory
    }
}

// A line that is a vector: what its call gives, and what it must give.
#[derive(Drop)]
struct Vector {
    got: Vec<u8>,
    expected: Vec<u8>,
}

// Runs the vector in a line, which is none in an empty line or behind a `%`.
fn run_line(heap: Global, line: &str) -> Result<Option<Vector>, AllocError> {
    if line.is_empty() || line.starts_with('%') {
        return Ok(None);
    }
    let mut words = line.split(' ');
    let call = decoded_call(heap, &mut words)?;
    let got = spelled(heap, answer(call.as_slice()))?;
    let expected = spaced(heap, words)?;
    Ok(Some(Vector { got, expected }))
}

// The bytes of each word up to a `=`, which is taken too.
fn decoded_call(heap: Global, words: &mut Split<'_, char>) -> Result<Vec<Vec<u8>>, AllocError> {
    let mut call = Vec::new(heap);
    for word in words.take_while(|word| *word != "=") {
        call.push(decoded(heap, word)?)?;
    }
    Ok(call)
}

// The bytes of the words that are no `=`, with one space between two.
fn spaced(heap: Global, words: Split<'_, char>) -> Result<Vec<u8>, AllocError> {
    let mut line = Vec::new(heap);
    for (i, word) in words.filter(|word| *word != "=").enumerate() {
        if i > 0 {
            line.push(b' ')?;
        }
        line.extend_from_slice(decoded(heap, word)?.as_slice())?;
    }
    Ok(line)
}

fn main(rt: HostRuntime) -> Result<ExitCode, Failure> {
    let heap = rt.alloc();
    let mut agree = 0usize;
    let mut differ = 0usize;
    for line in rt.lines(heap) {
        let line = line?;
        let Some(Vector { got, expected }) = run_line(heap, line.as_str())? else {
            continue;
        };
        if expected == got {
            agree = agree.saturating_add(1);
        } else {
            differ = differ.saturating_add(1);
            println!(rt; "differs: {line}\n    got: {got:?}")?;
        }
    }
    println!(rt; "{agree} vectors agree, {differ} differ")?;
    if differ > 0 {
        Ok(ExitCode::FAILURE)
    } else {
        Ok(ExitCode::SUCCESS)
    }
}
