// Dtype texts: the text that names a dtype is read into lines, and a dtype in use is one of its lines with all below it, or a bool or
// a number type that stands in no text. It knows nothing of tables and encodings.
#![tactic(auto)]

mod dtypes;
mod equality;
mod faults;
mod forms;
mod lines;
mod nodes;
mod order;
mod reader;

pub use dtypes::{Child, DType};
pub use faults::Fault;
pub use kinds::{Kind, Nullability, PType, UnknownNumber, UnknownWord, Word};
pub use lines::DTypeText;
pub use reader::{MAX_BYTES, MAX_LINES};
