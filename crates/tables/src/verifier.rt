ghost use Rattle.std.specs.Prelude.{◌≡◌, ℕ, ◌+◌, ◌-◌, ◌*◌, ◌^◌, ◌<◌, ◌≤◌, ◌++◌, length, take, replicate, None as Nothing};
ghost use Rattle.tables.specs.Listing.{Verified};
ghost use Rattle.tables.specs.Step.{Kept};
ghost use Rattle.tables.specs.Visit.{found, counted, recorded};

use crate::faults::Fault;
use crate::reads::Bytes;
use crate::records::{Limits, Part, Record};
use crate::visit::Visit;

// The most bytes that are read.
pub const MAX_BYTES: usize = 1_048_576;

// Empties the records from a number on.
fn clear_from<M: Copy>(records: &mut [Option<Record<M>>], from: usize)
    requires { from ≤ length records.old }
    ensures { records.new ≡ take from records.old ++ replicate (length records.old - from) Nothing }
{
    records[from..].fill(None);
}

// The visit of all tables, once bytes and limits are in range.
fn visit_within<M: Copy>(
    bytes: &[u8],
    limits: Limits,
    records: &mut [Option<Record<M>>],
) -> Result<u32, Fault>
    ensures value { result ≡ counted (found limits bytes.now (length records.old)) }
    ensures kept { Kept (found limits bytes.now (length records.old)) records.new }
{
    if bytes.len() > MAX_BYTES {
        return Err(Fault::TooLong);
    }
    if limits.levels < 1 || limits.levels > 64 || limits.tables < 1 || limits.tables > 4096 {
        return Err(Fault::BadLimit);
    }
    let bytes = Bytes { bytes };
    let mut visit = Visit {
        bytes,
        most: limits.tables,
        records,
        count: 0,
    };
    // The offset at place 0 leads to the root as one in a vector leads to a child.
    let root = Part { from: 0, count: 1 };
    visit.children(limits.levels, 0, 1, root)?;
    Ok(visit.count)
}

// Verifies that a tree of tables stands in the bytes, and tells how many tables it has. The first records are the tables in the
// order in which they are visited, without a mark; the others are empty, and all are where the bytes are refused.
pub fn verify<M: Copy>(
    bytes: &[u8],
    limits: Limits,
    records: &mut [Option<Record<M>>],
) -> Result<u32, Fault>
    ensures value { result ≡ counted (found limits bytes.now (length records.old)) }
    ensures records { records.new ≡ recorded (found limits bytes.now (length records.old)) (length records.old) }
    ensures tree { Verified limits bytes.now (length records.old) result records.new }
{
    match visit_within(bytes, limits, records) {
        Ok(count) => {
            clear_from(records, count as usize);
            Ok(count)
        }
        Err(fault) => {
            clear_from(records, 0);
            Err(fault)
        }
    }
}
