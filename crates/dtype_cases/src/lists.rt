// Lists of ids.
use crate::cases::Case;
use crate::notation::{Found, Quoted, bytes_of};
use ids::{Fault, Guard, Ids};
use replay::CaseError;
use std::alloc::AllocError;
use std::fmt::Write;
use std::str::FromStr;

// What is done to a list.
#[derive(Clone, Copy)]
enum Step {
    // An id is added.
    Add,
    // All ids of a file are added.
    AddAll,
    // Each id of a file is added under a guard, and the guard is dropped.
    Trial,
    // Each id of a file is added under a guard, and the guard is confirmed.
    Keep,
    // The first place of an id is asked for.
    Place,
    // The list is closed.
    Close,
}

impl FromStr for Step {
    type Err = CaseError;

    fn from_str(word: &str) -> Result<Step, CaseError> {
        match word {
            "add" => Ok(Step::Add),
            "all" => Ok(Step::AddAll),
            "trial" => Ok(Step::Trial),
            "keep" => Ok(Step::Keep),
            "place" => Ok(Step::Place),
            "close" => Ok(Step::Close),
            _ => Err(CaseError::NotACase),
        }
    }
}

// Reads a file of ids, and writes the refusal, or the answers to the steps that the words write, and at last the list.
pub fn write_lists(answer: &mut String, case: Case<'_>) -> Result<(), CaseError> {
    match ids::read(case.bytes.as_slice()) {
        Ok(mut list) => {
            for word in case.words {
                take_step(answer, &mut list, word)?;
            }
            Ok(write_list(answer, &list)?)
        }
        Err(fault) => {
            let (number, line) = (fault.number(), fault.line);
            Ok(write!(answer, " refused {number} at line {line}")?)
        }
    }
}

// Takes the step that a word writes, with the id or the file after its `=`, and writes the answer.
fn take_step(answer: &mut String, list: &mut Ids, word: &str) -> Result<(), CaseError> {
    let (step, letters) = word.split_once('=').unwrap_or((word, ""));
    let bytes = bytes_of(*answer.allocator(), letters)?;
    match step.parse()? {
        Step::Add => write_outcome(answer, list.add(bytes.as_slice()))?,
        Step::AddAll => write_outcome(answer, list.add_all(&list_of(bytes.as_slice())?))?,
        Step::Trial => drop(try_all(answer, list, &list_of(bytes.as_slice())?)?),
        Step::Keep => try_all(answer, list, &list_of(bytes.as_slice())?)?.confirm(),
        Step::Place => write!(answer, " {}", Found(list.place_of(bytes.as_slice())))?,
        Step::Close => list.close(),
    }
    Ok(())
}

// The list that a file of ids holds, which must be accepted.
fn list_of(bytes: &[u8]) -> Result<Ids, CaseError> {
    ids::read(bytes).map_err(|_| CaseError::NotACase)
}

// Adds each id of another list under a guard, and writes the answers.
fn try_all<'a>(
    answer: &mut String,
    list: &'a mut Ids,
    other: &Ids,
) -> Result<Guard<'a>, AllocError> {
    let mut guard = Guard::new(list);
    for id in other.iter() {
        write_outcome(answer, guard.add(id))?;
    }
    Ok(guard)
}

// Writes that ids were added, or the number of the refusal.
fn write_outcome(answer: &mut String, outcome: Result<(), Fault>) -> Result<(), AllocError> {
    match outcome {
        Ok(()) => answer.push_str(" done"),
        Err(fault) => write!(answer, " refused {}", fault.number()),
    }
}

// Writes whether a list is open, how many ids it has, what is found at each place, and what is found at some places past the last.
fn write_list(answer: &mut String, list: &Ids) -> Result<(), AllocError> {
    let state = if list.is_open() { "open" } else { "closed" };
    let count = list.len();
    write!(answer, "\n  {state} {count}:")?;
    for place in (0..=count).chain([256, u16::MAX]) {
        write!(answer, " {}", Found(list.get(place).map(Quoted)))?;
    }
    Ok(())
}
