// A fault on its way up: it gets its part from the subtable.
ghost use Rattle.std.specs.Prelude.{◌≡◌};
ghost use Rattle.markbase.specs.Faults.{placed};

use fields::Fault;
use refusal::Part;

/// A part of a subtable, and the place of its first broken field.
#[derive(Clone, Copy, Debug, PartialEq, Eq)]
pub struct PartFault {
    pub part: Part,
    pub place: usize,
}

/// What was read of a part.
pub fn in_part<T>(part: Part, read: Result<T, Fault>) -> Result<T, PartFault>
    ensures { result ≡ placed part read }
{
    read.map_err(|fault| PartFault {
        part,
        place: fault.place,
    })
}
