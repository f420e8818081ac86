// Reading a dtype text.
ghost use Rattle.std.specs.Prelude.{◌≡◌, ◌&&◌, length, nat_le};
ghost use Rattle.dtype.specs.Form.{lines_of};
ghost use Rattle.dtype.specs.Accepted.{Reads, ReadAs};
ghost use Rattle.dtype.specs.Step.{ReadLines};

use crate::faults::Fault;
use crate::forms::NEWLINE;
use crate::lines::{DTypeText, Line};
use crate::order::{check_end, check_line};
use std::alloc::Global;

// How many bytes a text has at most.
pub const MAX_BYTES: usize = 65_536;

// How many lines a text has at most.
pub const MAX_LINES: usize = 256;

// How many lines a text has; what follows the last 0A is one.
fn line_count(text: &[u8]) -> usize
    ensures { result ≡ length (lines_of text.now) }
{
    text.split_inclusive(|byte| *byte == NEWLINE).count()
}

// The lines of a text, or the fault of the first that is bad.
fn read_lines<'a>(heap: Global, text: &'a [u8]) -> Result<Vec<Line<'a>>, Fault>
    ensures { ReadLines text.now result }
{
    let mut lines = Vec::new(heap);
    for bytes in text.split_inclusive(|byte| *byte == NEWLINE) {
        let Some(line) = Line::read(bytes) else {
            return Err(Fault::Form(lines.len() + 1));
        };
        check_line(&lines, line)?;
        lines.push(line)?;
    }
    check_end(&lines)?;
    Ok(lines)
}

// Whether a text is no longer than is allowed.
fn is_within_limits(text: &[u8]) -> bool
    ensures { result ≡ (nat_le (length text.now) 65536 && nat_le (length (lines_of text.now)) 256) }
{
    text.len() <= MAX_BYTES && line_count(text) <= MAX_LINES
}

impl<'a> DTypeText<'a> {
    // Reads a text. The lines are kept in memory of the heap.
    pub fn read(heap: Global, text: &'a [u8]) -> Result<DTypeText<'a>, Fault>
        ensures value { ReadAs text.now result }
        ensures tree { Reads text.now result }
    {
        if !is_within_limits(text) {
            return Err(Fault::Size);
        }
        let lines = read_lines(heap, text)?;
        Ok(DTypeText { lines })
    }
}
