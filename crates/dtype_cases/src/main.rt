// Replays the cases of standard input, and prints what the libraries answer to each. A line holds a case: its name, what is
// asked, the bytes that it is asked of, and further words. Lines that begin with `#` explain the next cases. `make_cases.py`
// writes these lines and what is then to be printed, and says more on the form of both.
#![tactic(auto)]

mod cases;
mod equality;
mod lists;
mod notation;
mod texts;

use cases::{Case, Question};
use equality::write_equality;
use lists::write_lists;
use replay::CaseError;
use std::alloc::Global;
use std::fmt::Write;
use std::io;
use texts::{write_reading, write_word};

// The name of a line's case, and the answer to it.
fn answer_to(heap: Global, line: &str) -> Result<String, CaseError> {
    let case = Case::read(heap, line)?;
    let mut answer = String::new(heap);
    write!(answer, "{}:", case.name)?;
    match case.question {
        Question::Text => write_reading(&mut answer, case)?,
        Question::Word => write_word(&mut answer, case)?,
        Question::Equals => write_equality(&mut answer, case)?,
        Question::Ids => write_lists(&mut answer, case)?,
    }
    Ok(answer)
}

// Prints the answer to each case, and in the end how many cases there were. Each program that replays cases has such a loop:
// what the two share is one chain of calls and a count, and an iterator type with its contract is longer than both.
fn run_all(rt: &HostRuntime) -> io::Result<()> {
    let text = io::read_to_string(rt.alloc(), rt.stdin())?;
    let mut count: u64 = 0;
    for line in text.lines().filter(|line| !line.starts_with('#')) {
        let Ok(answer) = answer_to(rt.alloc(), line) else {
            return Err(io::Error::other("a line is no case, or there is no memory"));
        };
        println!(rt; "{answer}")?;
        count = count.saturating_add(1);
    }
    println!(rt; "{count} cases")
}

fn main(rt: HostRuntime) -> io::Result<()> {
    run_all(&rt)
}
