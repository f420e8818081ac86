// Lists of ids. A table names its encoding by a place in such a list, from 0. A list has its whole room from the moment it is
// made, so that no call lacks memory.
#![tactic(auto)]

mod faults;
mod guard;
mod iter;
mod list;
mod reader;

pub use faults::{Fault, ReadFault};
pub use guard::Guard;
pub use iter::Iter;
pub use list::{Ids, MOST_BYTES, MOST_IDS};
pub use reader::read;
