// The branches of a tree that is printed line by line.
ghost use Rattle.std.specs.Prelude.{◌≡◌, ◌-◌, ◌*◌, [], ◌∷◌, ◌++◌, take, min, OnOk, vec_len};

use std::alloc::{AllocError, Global};
use std::fmt;

// How wide a branch of the tree is.
pub const BRANCH_WIDTH: usize = 3;

// The branches to a node. What stands to the left of the node is printed of them: a column for each level above it, and its own
// branch. The root has none.
#[derive(Drop)]
pub struct Branches {
    // For the nodes below the root down to this one: whether each is the last child of its parent.
    pub are_last: Vec<bool>,
}

impl Branches {
    // The branches to the root.
    pub fn new(heap: Global) -> Branches
        ensures { result.are_last.items ≡ [] }
    {
        Branches {
            are_last: Vec::new(heap),
        }
    }

    // Goes on to the next node. Down to its parent the branches are those to the node before it. The root's depth is 1.
    pub fn enter(&mut self, depth: u32, is_last: bool) -> Result<(), AllocError>
        ensures { OnOk result (self.new.are_last.items ≡ take (depth - 2) self.old.are_last.items ++ (is_last ∷ [])) }
    {
        self.are_last.truncate(depth.saturating_sub(2) as usize);
        self.are_last.push(is_last)?;
        Ok(())
    }

    // How wide the branches are.
    pub fn width(&self) -> usize
        ensures { result ≡ min (vec_len self.now.are_last * BRANCH_WIDTH) usize.MAX }
    {
        self.are_last.len().saturating_mul(BRANCH_WIDTH)
    }
}

impl fmt::Display for Branches {
    fn fmt<W: fmt::Write>(&self, f: &mut fmt::Formatter<W>) -> fmt::Result {
        let Some((is_last, above)) = self.are_last.split_last() else {
            return Ok(());
        };
        for is_done in above {
            f.write_str(if *is_done { "   " } else { "│  " })?;
        }
        f.write_str(if *is_last { "└─ " } else { "├─ " })
    }
}
