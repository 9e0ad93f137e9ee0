// The command line: which words ask for what, and what is said of words that ask for nothing.
ghost use Rattle.std.specs.Prelude.{◌≡◌, map, Some, string_bytes};
ghost use Rattle.console.specs.Asks.{asked, help_asked, classes_asked, heard, complaint};

use std::fmt;

#[derive(Clone, Copy, Debug)]
pub enum Command<'a> {
    Help,
    Classes { archive: &'a str },
}

// Why a command line is refused.
#[derive(Clone, Copy, Debug)]
pub enum UsageFault<'a> {
    NoCommand,
    UnknownCommand(&'a str),
    NoArchive,
    // the first word past the last that the command takes
    TooMany(&'a str),
}

// What the words after the program's name ask for.
pub fn parse(words: &[String]) -> Result<Command<'_>, UsageFault<'_>>
    ensures { heard result ≡ asked (map string_bytes words.now) }
{
    match words {
        [] => Err(UsageFault::NoCommand),
        [command, rest @ ..] => match command.as_str() {
            "help" => help(rest),
            "classes" => classes(rest),
            unknown => Err(UsageFault::UnknownCommand(unknown)),
        },
    }
}

fn help(rest: &[String]) -> Result<Command<'_>, UsageFault<'_>>
    ensures { heard result ≡ help_asked (map string_bytes rest.now) }
{
    match rest {
        [] => Ok(Command::Help),
        [extra, ..] => Err(UsageFault::TooMany(extra.as_str())),
    }
}

fn classes(rest: &[String]) -> Result<Command<'_>, UsageFault<'_>>
    ensures { heard result ≡ classes_asked (map string_bytes rest.now) }
{
    match rest {
        [] => Err(UsageFault::NoArchive),
        [archive] => Ok(Command::Classes {
            archive: archive.as_str(),
        }),
        [_, extra, ..] => Err(UsageFault::TooMany(extra.as_str())),
    }
}

impl fmt::Display for UsageFault<'_> {
    ghost output = { λ f. Some (complaint f) };

    fn fmt<W: fmt::Write>(&self, f: &mut fmt::Formatter<W>) -> fmt::Result {
        match self {
            UsageFault::NoCommand => f.write_str("no command was given"),
            UsageFault::UnknownCommand(word) => write!(f, "unknown command '{word}'"),
            UsageFault::NoArchive => f.write_str("classes needs an ARCHIVE"),
            UsageFault::TooMany(word) => write!(f, "too many words: '{word}' is not expected"),
        }
    }
}

pub const USAGE: &str = "walqyndem: the class list of a Zarr archive

usage:
  walqyndem help             prints this text
  walqyndem classes ARCHIVE  numbers the nodes below the root of the archive in the folder ARCHIVE, from 0 in path order

Path order goes name by name, each by its bytes; a path that ends first is smaller.
";
