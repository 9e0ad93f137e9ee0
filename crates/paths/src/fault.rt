// What the path layer refuses.
ghost use Rattle.std.specs.Prelude.{◌≡◌};
ghost use Rattle.paths.specs.Faults.{told_of_path};

use text::{Fault, FaultReport, Layer};

// A path or a name that is refused: invalid, or over the limits of 255 bytes and 32 names.
#[derive(Clone, Copy, PartialEq, Eq, Debug)]
pub enum PathFault {
    Invalid,
    OverLimits,
}

impl Fault for PathFault {
    ghost told = { λ e. told_of_path e };

    fn report(&self) -> FaultReport {
        let number = match self {
            PathFault::Invalid => 11,
            PathFault::OverLimits => 12,
        };
        FaultReport {
            number,
            layer: Layer::Path,
            position: 0,
        }
    }
}
