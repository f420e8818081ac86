// The reader of layout tables: it verifies that a tree of tables stands in bytes, by the FlatBuffers format, numbers the tables as
// they are visited, and answers what each of them holds. It knows nothing of encodings, ids or dtypes.
#![tactic(auto)]

mod answers;
mod faults;
mod reads;
mod records;
mod segments;
mod verifier;
mod visit;

pub use answers::Tables;
pub use faults::{Fault, Missing};
pub use records::{Limits, Part, Record, Table};
pub use segments::{SegmentIds, SegmentIdsIter};
pub use verifier::{MAX_BYTES, verify};
