// A fault on its way up: it gets its subtable from the lookup.
ghost use Rattle.std.specs.Prelude.{◌≡◌};
ghost use Rattle.lookups.specs.declared.fault.LookupFault.TheVariants.{BrokenLookup};
ghost use Rattle.lookups.specs.Faults.{placed, refusal_of};

use fields::Fault;
use markbase::PartFault;
use refusal::{Part, Refusal};

/// Why a lookup cannot be read.
#[derive(Clone, Copy, Debug, PartialEq, Eq)]
pub enum LookupFault {
    /// A field of its own is broken.
    BrokenLookup {
        place: usize,
    },
    /// A part of one of its subtables is broken.
    BrokenPart {
        subtable: u16,
        part: Part,
        place: usize,
    },
}

impl From<Fault> for LookupFault {
    ghost from_gives = { λ f r. r ≡ BrokenLookup f.place };

    fn from(fault: Fault) -> LookupFault {
        LookupFault::BrokenLookup { place: fault.place }
    }
}

impl From<LookupFault> for Refusal {
    ghost from_gives = { λ f r. r ≡ refusal_of f };

    fn from(fault: LookupFault) -> Refusal {
        match fault {
            LookupFault::BrokenLookup { place } => Refusal::BrokenLookup { place },
            LookupFault::BrokenPart {
                subtable,
                part,
                place,
            } => Refusal::BrokenPart {
                subtable: u32::from(subtable),
                part,
                place,
            },
        }
    }
}

// Not one function with `in_part`: each layer has its own fault.
/// What was read of the subtable at this place.
pub fn in_subtable<T>(subtable: u16, read: Result<T, PartFault>) -> Result<T, LookupFault>
    ensures { result ≡ placed subtable read }
{
    read.map_err(|fault| LookupFault::BrokenPart {
        subtable,
        part: fault.part,
        place: fault.place,
    })
}
