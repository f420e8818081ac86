// The lines of a text that was read.
ghost use Rattle.std.specs.Prelude.{◌≡◌, length};
ghost use Rattle.dtype.specs.Use.{lines_in};

use kinds::{Kind, Nullability};

// What a dtype is at its top.
#[derive(Clone, Copy, PartialEq)]
pub(crate) struct Head {
    pub kind: Kind,
    pub nullability: Nullability,
}

// A line of a dtype text.
#[derive(Clone, Copy)]
pub(crate) struct Line<'a> {
    pub depth: u8,
    pub head: Head,
    pub name: &'a [u8],
}

// A text that was read, as its lines.
#[derive(Drop)]
pub struct DTypeText<'a> {
    pub(crate) lines: Vec<Line<'a>>,
}

impl DTypeText<'_> {
    // How many lines there are.
    pub fn line_count(&self) -> usize
        ensures { result ≡ length (lines_in self.now) }
    {
        self.lines.len()
    }
}
