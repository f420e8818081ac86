// What programs that replay cases share: why a line is no case, its words, and the parts of words, whose bytes are repeated; and the
// text that parts write.
#![tactic(auto)]

mod faults;
mod parts;
mod words;

pub use faults::CaseError;
pub use parts::{Part, expand, repeat_from};
pub use words::next_word;
