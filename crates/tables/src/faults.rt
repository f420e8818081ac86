ghost use Rattle.std.specs.Prelude.{◌≡◌};
ghost use Rattle.tables.specs.Fault.{fault_number, missing_number};

use thiserror::Error;

// Why bytes are refused. Each case has the number under which it is documented.
#[derive(Clone, Copy, Debug, PartialEq, Eq, Error)]
pub enum Fault {
    #[error("the file has more than 1,048,576 bytes")]
    TooLong = 6,
    #[error("a limit is outside its range (1 to 64 levels, 1 to 4,096 tables)")]
    BadLimit = 7,
    // A read that ends past the last byte, or a vtable below place 0.
    #[error("something lies outside the bytes of the file")]
    PastEnd = 8,
    #[error("a number stands at a place that is not a multiple of its size")]
    Misaligned = 9,
    #[error("an offset is 0, or a vtable's size is odd or below 4")]
    Malformed = 10,
    #[error("a table stands deeper than the limit of levels")]
    TooDeep = 11,
    #[error("there are more tables than the limit")]
    TooManyTables = 12,
    #[error("there are more tables than records to hold them")]
    NoRecord = 13,
}

// What a question finds missing.
#[derive(Clone, Copy, Debug, PartialEq, Eq, Error)]
pub enum Missing {
    #[error("there is no table of that number in these bytes")]
    Table,
    #[error("the table has no child at that place")]
    Child,
}

impl Fault {
    // The number under which the refusal is documented.
    pub fn number(self) -> u32
        ensures { result ≡ fault_number self }
    {
        self as u32
    }
}

impl Missing {
    // The number under which the answer is documented. It is one for both, and two cases cannot share a discriminant.
    pub fn number(self) -> u32
        ensures { result ≡ missing_number self }
    {
        match self {
            Missing::Table => 22,
            Missing::Child => 22,
        }
    }
}
