// What a pile of layers refuses.
ghost use Rattle.std.specs.Prelude.{◌≡◌};
ghost use Rattle.piles.specs.Faults.{told_of_pile};

use keys::StoreFault;
use paths::PathFault;
use text::{Fault, FaultReport};

// The path of a mount, or a call of the store under the layers, is refused.
#[derive(Clone, Copy, PartialEq, Eq, Debug)]
pub enum PileFault {
    Path(PathFault),
    Store(StoreFault),
}

impl From<PathFault> for PileFault {
    ghost use Rattle.piles.specs.declared.fault.PileFault.{PileFault};

    ghost from_gives = { λ path result. result ≡ PileFault.Path path };

    fn from(path: PathFault) -> PileFault {
        PileFault::Path(path)
    }
}

impl From<StoreFault> for PileFault {
    ghost use Rattle.piles.specs.declared.fault.PileFault.{PileFault};

    ghost from_gives = { λ store result. result ≡ PileFault.Store store };

    fn from(store: StoreFault) -> PileFault {
        PileFault::Store(store)
    }
}

impl Fault for PileFault {
    ghost told = { λ e. told_of_pile e };

    fn report(&self) -> FaultReport {
        match *self {
            PileFault::Path(fault) => fault.report(),
            PileFault::Store(fault) => fault.report(),
        }
    }
}
