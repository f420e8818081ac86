// A line with the lines that follow it: its children, and where they end.
ghost use Rattle.std.specs.Prelude.{◌≡◌, length, drop};
ghost use Rattle.std.specs.Iterator.{at_most};
ghost use Rattle.dtype.specs.Tree.{children_of, sizes};
ghost use Rattle.dtype.specs.Use.{count as count_of};
ghost use Rattle.dtype.specs.Node.{tree_in, FirstChild, NextChild, ChildAt};

use crate::lines::Line;

// A line of a text, and all lines after it. Those that are deeper, up to the first that is not, are below it.
#[derive(Clone, Copy)]
pub(crate) struct Node<'t, 'a> {
    pub line: Line<'a>,
    pub later: &'t [Line<'a>],
}

// The children of a node that are still to come: the lines from the next one on, and the depth of the node.
#[derive(Clone, Copy)]
pub(crate) struct ChildNodes<'t, 'a> {
    pub depth: u8,
    pub lines: &'t [Line<'a>],
}

impl<'t, 'a> Node<'t, 'a> {
    // The lines after all that are below this one.
    pub(crate) fn after(self) -> &'t [Line<'a>]
        ensures { result.now ≡ drop (sizes (children_of (tree_in self.entry))) self.entry.later.now }
    {
        let depth = self.line.depth;
        let below = self
            .later
            .iter()
            .take_while(|line| depth < line.depth)
            .count();
        &self.later[below..]
    }

    // The children, in their order.
    pub(crate) fn children(self) -> ChildNodes<'t, 'a>
        ensures depth { result.depth ≡ self.entry.line.depth }
        ensures lines { result.lines.now ≡ self.entry.later.now }
    {
        ChildNodes {
            depth: self.line.depth,
            lines: self.later,
        }
    }

    // How many children there are.
    pub(crate) fn child_count(self) -> usize
        ensures { result ≡ count_of (children_of (tree_in self.entry)) }
    {
        self.children().count()
    }

    // The k-th child, from 0.
    pub(crate) fn child(self, k: usize) -> Option<Node<'t, 'a>>
        ensures { ChildAt self.entry k result }
    {
        self.children().nth(k)
    }
}

impl<'t, 'a> ChildNodes<'t, 'a> {
    // The next child, which is still to come. What is below it is not looked at.
    pub(crate) fn first(self) -> Option<Node<'t, 'a>>
        ensures { FirstChild self.entry result }
    {
        let (line, later) = self.lines.split_first()?;
        if line.depth <= self.depth {
            return None;
        }
        Some(Node { line: *line, later })
    }

    // The children after one, which is the next.
    pub(crate) fn past(self, child: Node<'t, 'a>) -> ChildNodes<'t, 'a>
        ensures depth { result.depth ≡ self.entry.depth }
        ensures lines { result.lines.now ≡ drop (sizes (children_of (tree_in child.entry))) child.entry.later.now }
    {
        ChildNodes {
            depth: self.depth,
            lines: child.after(),
        }
    }
}

impl<'t, 'a> Iterator for ChildNodes<'t, 'a> {
    type Item = Node<'t, 'a>;

    ghost next_gives = { NextChild };

    ghost remaining = { λ s. at_most (length s.lines.now) };

    fn next(&mut self) -> Option<Node<'t, 'a>> {
        let (line, later) = self.lines.split_first()?;
        if line.depth <= self.depth {
            return None;
        }
        let child = Node { line: *line, later };
        self.lines = child.after();
        Some(child)
    }
}
