// Words and tests for a line that is printed.
ghost use Rattle.std.specs.Prelude.{◌≡◌, ◌+◌, [], if◌then◌else◌, codes, ◌==◌, nat_eq};

use tables::Table;

// The ending of a word after its count: none after 1.
pub fn plural(count: u64) -> &'static str
    ensures { result.now ≡ (if nat_eq count 1 then [] else codes "s") }
{
    if count == 1 { "" } else { "s" }
}

// Whether a table is the last child of its parent.
pub fn is_last_child(table: Table, parent: Table) -> bool
    ensures { result ≡ (table.index + 1 == parent.children) }
{
    table.index as u64 + 1 == parent.children as u64
}
