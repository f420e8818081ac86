// What a program that lists files computes before it prints: how wide columns are, the labels of encodings, the branches of a
// tree, the dtypes whose children are still to be printed, and which files a line names.
#![tactic(auto)]

mod branches;
mod columns;
mod escapes;
mod labels;
mod naming;
mod open;
mod words;

pub use branches::{BRANCH_WIDTH, Branches};
pub use columns::{Columns, Greatest, greatest_of};
pub use escapes::Escaped;
pub use labels::{Label, Labels};
pub use naming::{Names, Sources, sources_in};
pub use open::{Open, push_open};
pub use words::{is_last_child, plural};
