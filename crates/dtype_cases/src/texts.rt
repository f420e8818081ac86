// Reading dtype texts, and dtypes in use.
use crate::cases::Case;
use crate::notation::{Found, Quoted};
use dtype::{DType, DTypeText, Fault, Kind, Nullability, PType, Word};
use replay::{CaseError, next_word};
use std::alloc::AllocError;
use std::fmt::Write;

// Reads a text, and writes the refusal, or all its lines and the dtypes in use that the words write.
pub fn write_reading(answer: &mut String, case: Case<'_>) -> Result<(), CaseError> {
    match DTypeText::read(*answer.allocator(), case.bytes.as_slice()) {
        Ok(text) => {
            write_lines(answer, &text)?;
            for word in case.words {
                write!(answer, "\n  {word}:")?;
                write_dtype(answer, &text, dtype_of(word)?)?;
            }
            Ok(())
        }
        Err(fault) => write_refusal(answer, fault),
    }
}

// Writes the number of a refusal, and the line that is bad, if one is. Want of memory has no number, and no answer.
fn write_refusal(answer: &mut String, fault: Fault) -> Result<(), CaseError> {
    let number = fault.number().ok_or(CaseError::Memory)?;
    let line = Found(fault.line());
    Ok(write!(answer, " refused {number} at line {line}")?)
}

// Writes each line of a text, from the number before the first to the one after the last.
fn write_lines(answer: &mut String, text: &DTypeText) -> Result<(), AllocError> {
    answer.push_str(" accepted")?;
    for number in 0..=text.line_count().saturating_add(1) {
        write!(answer, "\n  {number}:")?;
        write_dtype(answer, text, DType::Line(number))?;
    }
    Ok(())
}

// The dtype that a word writes: the number of a line, or a kind and a null mark with a comma between them.
pub fn dtype_of(word: &str) -> Result<DType, CaseError> {
    let Some((kind, mark)) = word.split_once(',') else {
        return Ok(DType::Line(word.parse::<usize>()?));
    };
    let kind = Kind::try_from(kind.as_bytes()).or(Err(CaseError::NotACase))?;
    let nullability = Nullability::try_from(mark.as_bytes()).or(Err(CaseError::NotACase))?;
    match kind {
        Kind::Bool => Ok(DType::Bool(nullability)),
        Kind::Primitive(ptype) => Ok(DType::Primitive(ptype, nullability)),
        _ => Err(CaseError::NotACase),
    }
}

// Writes the kind of a dtype, its null mark, the number of its children, the next line that is not below it, and the children.
fn write_dtype(answer: &mut String, text: &DTypeText, dtype: DType) -> Result<(), AllocError> {
    let kind = Found(dtype.kind(text).map(Kind::word));
    let mark = Found(dtype.nullability(text).map(Nullability::word));
    let count = Found(dtype.child_count(text));
    let next = Found(dtype.next_line(text));
    write!(answer, " {kind} {mark} {count} {next}")?;
    write_children(answer, text, dtype)
}

// Writes the name and the line of each child, and what is found past the last: the place after it is asked for too.
fn write_children(answer: &mut String, text: &DTypeText, dtype: DType) -> Result<(), AllocError> {
    for k in 0..=dtype.child_count(text).unwrap_or(0) {
        let Some(child) = dtype.child(text, k) else {
            return answer.push_str(" -");
        };
        write!(answer, " {}", Quoted(child.name))?;
        if let DType::Line(line) = child.dtype {
            write!(answer, " {line}")?;
        }
    }
    Ok(())
}

// Writes the kind that a word stands for, with its number if it is a number type, the null mark that it stands for, and the
// number type that a number stands for.
pub fn write_word(answer: &mut String, mut case: Case<'_>) -> Result<(), CaseError> {
    let number = next_word(&mut case.words)?.parse::<u32>()?;
    let word = case.bytes.as_slice();
    let kind = Kind::try_from(word).ok();
    write!(answer, " {}", Found(kind.map(Kind::word)))?;
    if let Some(Kind::Primitive(ptype)) = kind {
        write!(answer, " {}", ptype.number())?;
    }
    let mark = Found(Nullability::try_from(word).ok().map(Nullability::word));
    let named = Found(PType::try_from(number).ok().map(PType::word));
    Ok(write!(answer, " {mark} {named}")?)
}
