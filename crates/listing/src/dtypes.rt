// A dtype as a tree.
use dtype::{DType, DTypeText, Word};
use printing::{Branches, Escaped, Open, push_open};
use std::{fmt, io};

// A dtype of a text as a line of the tree.
#[derive(Drop)]
struct Node<'a, 'b> {
    text: &'b DTypeText<'a>,
    branches: &'b Branches,
    // Only a field of a struct has a name.
    name: &'a [u8],
    dtype: DType,
}

impl fmt::Display for Node<'_, '_> {
    fn fmt<W: fmt::Write>(&self, f: &mut fmt::Formatter<W>) -> fmt::Result {
        write!(f, "{}", self.branches)?;
        if !self.name.is_empty() {
            let name = Escaped { bytes: self.name };
            write!(f, "{name}: ")?;
        }
        if let Some(kind) = self.dtype.kind(self.text) {
            f.write_str(kind.word())?;
        }
        if let Some(nullability) = self.dtype.nullability(self.text) {
            write!(f, " {}", nullability.word())?;
        }
        Ok(())
    }
}

// Prints a line for each line of the text: the children of a dtype stand below it, in their order. A recursion over the children
// is no plainer: that it ends has to be proved from the numbers of the lines, while this loop takes a turn for each line.
pub fn print_dtype(rt: &(impl Print + AllocGlobal), text: &DTypeText) -> io::Result<()> {
    let root = DType::Line(1);
    let mut branches = Branches::new(rt.alloc());
    let mut parents = Vec::new(rt.alloc());
    rt.println(Node {
        text,
        branches: &branches,
        name: b"",
        dtype: root,
    })?;
    push_open(&mut parents, Open::new(text, root, 1))?;
    for _ in 1..text.line_count() {
        let Some(parent) = parents.pop() else {
            break;
        };
        let Some(child) = parent.dtype.child(text, parent.next) else {
            break;
        };
        let depth = parent.depth.saturating_add(1);
        let rest = parent.advance();
        branches.enter(depth, rest.is_none())?;
        push_open(&mut parents, rest)?;
        push_open(&mut parents, Open::new(text, child.dtype, depth))?;
        rt.println(Node {
            text,
            branches: &branches,
            name: child.name,
            dtype: child.dtype,
        })?;
    }
    Ok(())
}
