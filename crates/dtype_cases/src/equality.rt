// Whether two dtypes in use are equal.
use crate::cases::Case;
use crate::notation::bytes_of;
use crate::texts::dtype_of;
use dtype::{DTypeText, Fault};
use replay::{CaseError, next_word};
use std::alloc::Global;
use std::fmt::Write;

// Writes whether the dtype in use that the first word writes, of a text, equals another, whose text and dtype are the other words,
// and whether the other equals the first. Both texts must be accepted.
pub fn write_equality(answer: &mut String, mut case: Case<'_>) -> Result<(), CaseError> {
    let heap = *answer.allocator();
    let dtype = dtype_of(next_word(&mut case.words)?)?;
    let other_letters = next_word(&mut case.words)?;
    let other = dtype_of(next_word(&mut case.words)?)?;
    let other_bytes = bytes_of(heap, other_letters)?;
    let text = accepted(heap, case.bytes.as_slice())?;
    let other_text = accepted(heap, other_bytes.as_slice())?;
    let there = dtype.equals(&text, other, &other_text);
    let back = other.equals(&other_text, dtype, &text);
    Ok(write!(answer, " {there} {back}")?)
}

// A text that must be accepted.
fn accepted<'a>(heap: Global, bytes: &'a [u8]) -> Result<DTypeText<'a>, CaseError> {
    DTypeText::read(heap, bytes).map_err(|fault| match fault {
        Fault::Memory => CaseError::Memory,
        _ => CaseError::NotACase,
    })
}
