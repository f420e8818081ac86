// Files as they are listed on the standard output: what the programs that list files do between their arguments and their exit status.
#![tactic(auto)]

mod drawing;
mod dtypes;
mod failures;
mod lister;
mod printer;
mod reading;

pub use failures::{Failure, exit_code};
pub use lister::Lister;
