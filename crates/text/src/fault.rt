// The shape in which every layer reports what it refuses.
ghost use Rattle.std.specs.Prelude.{◌≡◌, Some};
ghost use Rattle.text.specs.declared.fault.FaultReport.{FaultReport};
ghost use Rattle.text.specs.Faults.{layer_name, fault_text};

use std::fmt;

// The part of the engine that refuses.
#[derive(Clone, Copy, PartialEq, Eq, Debug)]
pub enum Layer {
    Path,
    Store,
    Document,
    Node,
    Group,
}

impl Layer {
    // Its name, as messages write it.
    pub fn name(self) -> &'static str
        ensures { result.now ≡ layer_name self }
    {
        match self {
            Layer::Path => "path",
            Layer::Store => "store",
            Layer::Document => "document",
            Layer::Node => "node",
            Layer::Group => "group",
        }
    }
}

impl fmt::Display for Layer {
    ghost output = { λ layer. Some (layer_name layer) };

    fn fmt<W: fmt::Write>(&self, f: &mut fmt::Formatter<W>) -> fmt::Result {
        let name = self.name();
        write!(f, "{name}")
    }
}

// What is told of a refusal: its number, the layer that refused, and the position it refused at.
#[derive(Clone, Copy, PartialEq, Eq, Debug)]
pub struct FaultReport {
    pub number: u16,
    pub layer: Layer,
    pub position: usize,
}

impl fmt::Display for FaultReport {
    ghost output = { λ report. Some (fault_text report) };

    fn fmt<W: fmt::Write>(&self, f: &mut fmt::Formatter<W>) -> fmt::Result {
        let FaultReport {
            number,
            layer,
            position,
        } = *self;
        write!(f, "fault {number} {layer} {position}")
    }
}

// A refusal of any layer.
pub trait Fault {
    ghost told: { Self → FaultReport };

    fn report(&self) -> FaultReport
        ensures { result ≡ told self.now };
}

// So a `?` reports what is refused.
impl<F: Fault + Drop> From<F> for FaultReport {
    ghost from_gives = { λ fault report. report ≡ F.Fault.told fault };

    fn from(fault: F) -> FaultReport {
        fault.report()
    }
}
