// What a store refuses.
ghost use Rattle.std.specs.Prelude.{◌≡◌};
ghost use Rattle.keys.specs.Faults.{told_of_store};

use text::{Fault, FaultReport, Layer};

// A malformed key or prefix; an answer longer than the buffer; a value not taken; a key not let go; bytes that are no image; a row that there is not, or a row's malformed prefix.
#[derive(Clone, Copy, PartialEq, Eq, Debug)]
pub enum StoreFault {
    Malformed,
    Longer,
    NotTaken,
    NotLetGo,
    Image,
    Row,
}

impl Fault for StoreFault {
    ghost told = { λ e. told_of_store e };

    fn report(&self) -> FaultReport {
        let number = match self {
            StoreFault::Malformed => 13,
            StoreFault::Longer => 22,
            StoreFault::NotTaken => 23,
            StoreFault::NotLetGo => 24,
            StoreFault::Image => 51,
            StoreFault::Row => 52,
        };
        FaultReport {
            number,
            layer: Layer::Store,
            position: 0,
        }
    }
}
