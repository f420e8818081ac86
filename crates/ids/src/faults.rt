ghost use Rattle.std.specs.Prelude.{◌≡◌};
ghost use Rattle.ids.specs.Fault.{fault_number};

use thiserror::Error;

// Why an id is refused, with the number under which the refusal is documented.
#[derive(Clone, Copy, Debug, PartialEq, Eq, Error)]
pub enum Fault {
    #[error("the id has no bytes, or more than 64")]
    Length = 4,
    #[error("the list already has 64 ids, the most that it can hold")]
    Full = 5,
    #[error("the list of ids is closed and takes no more")]
    Closed = 29,
}

// Why a file of ids is refused.
#[derive(Clone, Copy, Debug, PartialEq, Eq, Error)]
#[error("line {line}: {fault}")]
pub struct ReadFault {
    // The first line that is refused, from 1.
    pub line: u16,
    pub fault: Fault,
}

impl Fault {
    // The number under which the refusal is documented.
    pub fn number(self) -> u32
        ensures { result ≡ fault_number self }
    {
        self as u32
    }
}

impl ReadFault {
    // The number under which the refusal is documented. It is that of the fault: a line has none of its own.
    pub fn number(self) -> u32
        ensures { result ≡ fault_number self.fault }
    {
        self.fault.number()
    }
}
