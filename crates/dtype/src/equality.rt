// When two dtypes in use are equal, whichever texts they stand in.
ghost use Rattle.std.specs.Prelude.{◌≡◌, Decides};
ghost use Rattle.dtype.specs.Use.{Same};
ghost use Rattle.dtype.specs.Node.{tree_in};

use crate::dtypes::DType;
use crate::lines::DTypeText;
use crate::nodes::Node;

impl Node<'_, '_> {
    // Whether the dtypes of two nodes are equal. Each call for a child is on a deeper line, so the depth that remains falls. The lines
    // below two children are passed over only once these agree, so that dtypes which differ early cost no more than that. The iterator
    // passes over them before it gives a child, so it does not fit.
    fn equals(self, other: Node) -> bool
        ensures { Decides result (tree_in self.entry ≡ tree_in other.entry) }
    {
        if self.line.head != other.line.head {
            return false;
        }
        let mut left = self.children();
        let mut others = other.children();
        while let Some(child) = left.first() {
            let Some(twin) = others.first() else {
                return false;
            };
            if child.line.name != twin.line.name {
                return false;
            }
            if !child.equals(twin) {
                return false;
            }
            left = left.past(child);
            others = others.past(twin);
        }
        others.first().is_none()
    }
}

impl DType {
    // Whether two dtypes in use are equal: kinds, null marks, the names of children and the children agree, level under level,
    // whatever lines they stand at and whichever texts they come from. A line's own name does not matter. A line that is not
    // there equals nothing. It is no PartialEq, since a dtype does not hold its text.
    pub fn equals(self, text: &DTypeText, other: DType, other_text: &DTypeText) -> bool
        ensures { Decides result (Same text.now self other_text.now other) }
    {
        match (text.node(self), other_text.node(other)) {
            (Some(node), Some(other)) => node.equals(other),
            _ => false,
        }
    }
}
