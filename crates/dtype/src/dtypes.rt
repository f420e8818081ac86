// Dtypes in use.
ghost use Rattle.std.specs.Prelude.{◌≡◌, None as Nothing, MatchOption};
ghost use Rattle.dtype.specs.Tree.{kind_of, nullability_of, children_of};
ghost use Rattle.dtype.specs.Use.{meaning, of, count as count_of, IsChild, next_line, tree_at, lines_in};
ghost use Rattle.dtype.specs.Node.{NodeOf, LineNode};

use crate::lines::{DTypeText, Head, Line};
use crate::nodes::Node;
use kinds::{Kind, Nullability, PType};

// A dtype in use: a line of a text with all below it, or a bool or a number type that stands in no text.
#[derive(Clone, Copy)]
pub enum DType {
    // The first line of a text is line 1. There need not be such a line.
    Line(usize),
    Bool(Nullability),
    Primitive(PType, Nullability),
}

// A child of a dtype: its name, as a part of the text, and its dtype.
#[derive(Clone, Copy)]
pub struct Child<'a> {
    pub name: &'a [u8],
    pub dtype: DType,
}

impl<'a> DTypeText<'a> {
    // The line that has this number, with the lines after it.
    fn node_at(&self, number: usize) -> Option<Node<'_, 'a>>
        ensures { MatchOption result (tree_at (lines_in self.now) number ≡ Nothing) (LineNode self.now number) }
    {
        let lines = self.lines.get(number.checked_sub(1)?..)?;
        let (line, later) = lines.split_first()?;
        Some(Node { line: *line, later })
    }

    // The dtype as a node: its line with the lines after it, or one line alone where it stands in no text.
    pub(crate) fn node(&self, dtype: DType) -> Option<Node<'_, 'a>>
        ensures { MatchOption result (meaning self.now dtype ≡ Nothing) (NodeOf self.now dtype) }
    {
        let (kind, nullability) = match dtype {
            DType::Line(number) => return self.node_at(number),
            DType::Bool(nullability) => (Kind::Bool, nullability),
            DType::Primitive(ptype, nullability) => (Kind::Primitive(ptype), nullability),
        };
        let line = Line {
            depth: 0,
            head: Head { kind, nullability },
            name: &[],
        };
        Some(Node {
            line,
            later: &self.lines[..0],
        })
    }
}

// A dtype in use does not hold its text, so that it is plain data which a record of the tree can keep. Each call is given the text.
impl DType {
    // The kind; none where there is no such line.
    pub fn kind(self, text: &DTypeText) -> Option<Kind>
        ensures { result ≡ of kind_of (meaning text.now self) }
    {
        Some(text.node(self)?.line.head.kind)
    }

    // The null mark; none where there is no such line.
    pub fn nullability(self, text: &DTypeText) -> Option<Nullability>
        ensures { result ≡ of nullability_of (meaning text.now self) }
    {
        Some(text.node(self)?.line.head.nullability)
    }

    // The number of children; none where there is no such line.
    pub fn child_count(self, text: &DTypeText) -> Option<usize>
        ensures { result ≡ of (λ t. count_of (children_of t)) (meaning text.now self) }
    {
        Some(text.node(self)?.child_count())
    }

    // The k-th child, from 0; none past the last, and where there is no such line.
    pub fn child<'a>(self, text: &DTypeText<'a>, k: usize) -> Option<Child<'a>>
        ensures { IsChild text.now self k result }
    {
        let node = text.node(self)?;
        let child = node.child(k)?;
        Some(Child {
            name: child.line.name,
            dtype: DType::Line(text.lines.len() - child.later.len()),
        })
    }

    // The line after a line and all below it; none at the end of the text, where there is no such line, and for a dtype that stands
    // in no text.
    #[tactic(auto, using(crate::proofs::Meanings::after_within, crate::proofs::Meanings::next_there, crate::proofs::Meanings::next_none))]
    pub fn next_line(self, text: &DTypeText) -> Option<usize>
        ensures { result ≡ next_line text.now self }
    {
        let node = text.node(self)?;
        let after = node.after();
        if after.is_empty() {
            None
        } else {
            Some(text.lines.len() - after.len() + 1)
        }
    }
}
