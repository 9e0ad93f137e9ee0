// Why something was passed over, and what to do about it.
ghost use Rattle.std.specs.Prelude.{◌≡◌, Some};
ghost use Rattle.std.specs.Fmt.{WritesOnOk};
ghost use Rattle.paths.specs.Faults.{told_of_path};
ghost use Rattle.console.specs.Reports.{sentence, refusal as refusal_of, advice as advice_on};

use classes::listing::Reason;
use paths::PathFault;
use std::fmt;
use text::{Fault, FaultReport};

// A reason, printed as one sentence; that of a fault has its number and its layer.
#[derive(Clone, Copy)]
pub struct Sentence(pub Reason);

impl fmt::Display for Sentence {
    ghost output = { λ s. Some (sentence s.0) };

    fn fmt<W: fmt::Write>(&self, f: &mut fmt::Formatter<W>) -> fmt::Result {
        match self.0 {
            Reason::Reserved => f.write_str(
                "a name that begins with __ is reserved, so it was not read; rename it to list it",
            ),
            Reason::Refused(fault) => write_refusal(f, fault, advice(fault)),
            Reason::Unmarked => f.write_str(
                "it holds no zarr.json, .zarray or .zgroup, so it is no node and nothing below it was read",
            ),
            Reason::Link => f.write_str(
                "it is a symbolic link, which is not followed; put the folder itself in its place",
            ),
            Reason::Unnamed => write_refusal(
                f,
                PathFault::Invalid,
                "it holds an entry whose name is not UTF-8; rename that entry",
            ),
            Reason::Repeated => f.write_str("another node has the same path; it is listed once"),
        }
    }
}

// A fault's sentence: its number and its layer, and then what to do about it.
fn write_refusal<W: fmt::Write>(
    f: &mut fmt::Formatter<W>,
    fault: PathFault,
    advice: &str,
) -> fmt::Result
    ensures { WritesOnOk W.write_str_gives f.old result (refusal_of (told_of_path fault) advice.now) f.new }
{
    let FaultReport { number, layer, .. } = fault.report();
    write!(f, "fault {number} of the {layer} layer, {advice}")
}

fn advice(fault: PathFault) -> &'static str
    ensures { result.now ≡ advice_on fault }
{
    match fault {
        PathFault::Invalid =>
            "the name is not valid; rename it to text that is not made of periods only",
        PathFault::OverLimits =>
            "the path has more than 255 bytes or 32 names; shorten its names or move it up",
    }
}
