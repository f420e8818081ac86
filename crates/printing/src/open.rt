// Dtypes whose children are printed one by one.
ghost use Rattle.std.specs.Prelude.{◌≡◌, ◌++◌, OnOk};
ghost use Rattle.std.specs.Option.{option_to_list};
ghost use Rattle.printing.specs.Opened.{child_count, opened, advanced};

use dtype::{DType, DTypeText};
use std::io;

// A dtype some of whose children are still to be printed.
#[derive(Clone, Copy)]
pub struct Open {
    pub dtype: DType,
    // The root's depth is 1.
    pub depth: u32,
    // Which child is next, from 0, and how many there are. They are counted, since a dtype in use gives its k-th
    // child by number: it holds neither its text nor a place among its children.
    pub next: usize,
    pub count: usize,
}

impl Open {
    // A dtype before its first child; none if it has no children.
    pub fn new(text: &DTypeText, dtype: DType, depth: u32) -> Option<Open>
        ensures { result ≡ opened dtype depth (child_count text.now dtype) }
    {
        let count = dtype.child_count(text)?;
        if count == 0 {
            return None;
        }
        Some(Open {
            dtype,
            depth,
            next: 0,
            count,
        })
    }

    // The dtype after its next child; none if that child is the last.
    pub fn advance(self) -> Option<Open>
        ensures { result ≡ advanced self }
    {
        let next = self.next.checked_add(1)?;
        (next < self.count).then_some(Open { next, ..self })
    }
}

// Adds a dtype to the open ones, if there is one.
pub fn push_open(parents: &mut Vec<Open>, parent: Option<Open>) -> io::Result<()>
    ensures { OnOk result (parents.new.items ≡ parents.old.items ++ option_to_list parent) }
{
    parents.extend(parent)?;
    Ok(())
}
