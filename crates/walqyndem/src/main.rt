// The program that a shift runs: it reads a command line and an archive's folders, and prints.
#![tactic(auto)]

mod failure;
mod folders;

use classes::listing;
use console::command::Command;
use console::{command, report};
use failure::Failure;
use std::env;
use std::io::Write;
use std::process::ExitCode;

fn run(rt: &HostRuntime) -> Result<(), Failure> {
    let heap = rt.alloc();
    let words: Vec<String> = env::args(rt)?.skip(1).collect(heap)?;
    match command::parse(words.as_slice()) {
        Ok(Command::Help) => {
            print!(rt; "{}", command::USAGE)?;
            Ok(())
        }
        Ok(Command::Classes { archive }) => classes(rt, archive),
        Err(fault) => Err(Failure::Usage(format!(in heap; "{fault}")?)),
    }
}

fn classes(rt: &HostRuntime, archive: &str) -> Result<(), Failure> {
    let heap = rt.alloc();
    let found = folders::find(rt, archive)?;
    let list = listing::class_list(heap, found.as_slice())?;
    let text = report::report(heap, archive, &list)?;
    rt.stdout().write_all(text.as_slice())?;
    Ok(())
}

fn main(rt: HostRuntime) -> ExitCode {
    let result = run(&rt);
    if let Err(failure) = &result {
        let _ = tell(&rt, failure);
        return ExitCode::FAILURE;
    }
    ExitCode::SUCCESS
}

// Prints why the program stops, as one line of standard error.
fn tell(rt: &HostRuntime, failure: &Failure) -> Result<(), Failure> {
    let heap = rt.alloc();
    let sentence = format!(in heap; "walqyndem: {failure}")?;
    let mut line = Vec::new(heap);
    printing::push_shown(&mut line, sentence.as_bytes())?;
    line.push(b'\n')?;
    rt.stderr().write_all(line.as_slice())?;
    Ok(())
}
