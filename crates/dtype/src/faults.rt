ghost use Rattle.std.specs.Prelude.{◌≡◌};
ghost use Rattle.dtype.specs.declared.faults.Fault.TheVariants.{Memory};
ghost use Rattle.dtype.specs.Number.{fault_number, fault_line};

use std::alloc::AllocFailed;
use thiserror::Error;

// Why a dtype text is refused. The first line is line 1.
#[derive(Clone, Copy, Debug, PartialEq, Eq, Error)]
pub enum Fault {
    // More than 65,536 bytes or 256 lines.
    #[error("the text has more than 65,536 bytes or 256 lines")]
    Size,
    // A line that is not in form.
    #[error("line {0} is not a depth, a kind, a null mark (null or req) and a name, parted by tabs and ended by a line end")]
    Form(usize),
    // A line whose depth, children or name do not fit.
    #[error("line {0} does not fit the lines around it: its depth, its children, or its name")]
    Shape(usize),
    // There is no memory for the lines.
    #[error("there is not enough memory for the lines")]
    Memory,
}

// Written by hand, since the contract of `read` has to know which refusal comes of want of memory.
impl<T: Drop> From<AllocFailed<T>> for Fault {
    ghost from_gives = { λ _ r. r ≡ Memory };

    fn from(_refused: AllocFailed<T>) -> Fault {
        Fault::Memory
    }
}

impl Fault {
    // The number under which the refusal is documented. Want of memory has none. It is no discriminant, since two cases carry a line,
    // and such an enum cannot be cast to a number.
    pub fn number(self) -> Option<u32>
        ensures { result ≡ fault_number self }
    {
        match self {
            Fault::Size => Some(1),
            Fault::Form(_) => Some(2),
            Fault::Shape(_) => Some(3),
            Fault::Memory => None,
        }
    }

    // The bad line, if one is bad.
    pub fn line(self) -> Option<usize>
        ensures { result ≡ fault_line self }
    {
        match self {
            Fault::Form(line) | Fault::Shape(line) => Some(line),
            Fault::Size | Fault::Memory => None,
        }
    }
}
