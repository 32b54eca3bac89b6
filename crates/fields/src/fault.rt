// A broken field.
ghost use Rattle.std.specs.Prelude.{◌≡◌};

use layout::CoverageFault;

/// The place of the first broken field of a vertex.
// No `CoverageFault` under another name: each layer has its own fault, and `?` leads from one to the next.
#[derive(Clone, Copy, Debug, PartialEq, Eq)]
pub struct Fault {
    pub place: usize,
}

impl From<CoverageFault> for Fault {
    ghost from_gives = { λ f r. r.place ≡ f.place };

    fn from(fault: CoverageFault) -> Fault {
        Fault { place: fault.place }
    }
}
