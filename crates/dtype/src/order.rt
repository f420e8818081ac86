// Whether the lines of a text fit one another.
ghost use Rattle.std.specs.Prelude.{◌≡◌, reverse, length, Some as Found};
ghost use Rattle.std.specs.Option.{option_map};
ghost use Rattle.dtype.specs.Row.{row_of, rows_of};
ghost use Rattle.dtype.specs.Order.{above, below, takes as takes_child, fits as fits_after};
ghost use Rattle.dtype.specs.Step.{line_fault, end_fault, checked};

use crate::faults::Fault;
use crate::lines::Line;
use kinds::Kind;

// The greatest depth of a line.
const MAX_DEPTH: u8 = 15;

// How many bytes the name of a field has at most.
const MAX_NAME: usize = 64;

// The nearest of the earlier lines that is less deep.
fn parent_of<'l, 'a>(earlier: &'l [Line<'a>], depth: u8) -> Option<&'l Line<'a>>
    ensures { option_map (λ l. row_of l.now) result ≡ above depth (reverse (rows_of earlier.now)) }
{
    earlier.iter().rev().find(|line| line.depth < depth)
}

// Whether a line with a name of `name_len` bytes may be a child of a line of this kind; `is_next` tells whether it follows it directly.
fn takes(kind: Kind, is_next: bool, name_len: usize) -> bool
    ensures { result ≡ takes_child kind is_next name_len }
{
    match kind {
        Kind::Struct => 0 < name_len && name_len <= MAX_NAME,
        Kind::List => is_next && name_len == 0,
        _ => false,
    }
}

// Whether a line is a child of the one above it, with a name that this allows.
fn is_child(parent: Line, line: Line, is_next: bool) -> bool
    ensures { result ≡ below line.entry.depth is_next (length line.entry.name.now) (Found (row_of parent.entry)) }
{
    u16::from(parent.depth) + 1 == u16::from(line.depth)
        && takes(parent.head.kind, is_next, line.name.len())
}

// Whether the depth and the name of a line fit the earlier lines.
fn fits(earlier: &[Line], line: Line) -> bool
    ensures { result ≡ fits_after (reverse (rows_of earlier.now)) (row_of line.entry) }
{
    let Some(last) = earlier.last() else {
        return line.depth == 0 && line.name.is_empty();
    };
    let is_next = last.depth < line.depth;
    let Some(parent) = parent_of(earlier, line.depth) else {
        return false;
    };
    line.depth <= MAX_DEPTH && is_child(*parent, line, is_next)
}

// What is wrong where a line in form follows the earlier ones: a list just before it that has no child, or the line itself.
pub(crate) fn check_line(earlier: &[Line], line: Line) -> Result<(), Fault>
    ensures { result ≡ checked (line_fault (reverse (rows_of earlier.now)) (row_of line.entry)) }
{
    if let Some(last) = earlier.last()
        && last.head.kind == Kind::List
        && line.depth <= last.depth
    {
        return Err(Fault::Shape(earlier.len()));
    }
    if fits(earlier, line) {
        Ok(())
    } else {
        Err(Fault::Shape(earlier.len() + 1))
    }
}

// What is wrong where the text ends after these lines: there is none, or the last is a list that has no child.
pub(crate) fn check_end(lines: &[Line]) -> Result<(), Fault>
    ensures { result ≡ checked (end_fault (reverse (rows_of lines.now))) }
{
    match lines.last() {
        None => Err(Fault::Form(1)),
        Some(last) if last.head.kind == Kind::List => Err(Fault::Shape(lines.len())),
        Some(_) => Ok(()),
    }
}
