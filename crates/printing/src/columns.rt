ghost use Rattle.std.specs.Prelude.{◌≡◌, ℕ, ◌-◌, ◌*◌, ◌≤◌, max, map};
ghost use Rattle.std.specs.List.{reduce};
ghost use Rattle.std.specs.Option.{unwrap_or};
ghost use Rattle.std.specs.Ordering.{max_by_ordering};
ghost use Rattle.std.specs.Iterator.{ActsAs};
ghost use Rattle.printing.specs.Greatest.{greatest as greatest_of, number_or};
ghost use Rattle.printing.specs.Width.{Width};

use crate::branches::BRANCH_WIDTH;
use tables::{Record, Table};

// The greatest of each number among the tables of a file.
#[derive(Clone, Copy, Debug, PartialEq, Eq)]
pub struct Greatest {
    pub depth: u32,
    pub place: u32,
    pub encoding: u16,
    pub rows: u64,
}

// How many characters wide each column of a list is.
#[derive(Clone, Copy, Debug, PartialEq, Eq)]
pub struct Columns {
    // The branches of the tree, and the number of the table after them.
    pub tree_width: usize,
    pub place_width: usize,
    pub encoding_width: usize,
    // What stands after the encoding.
    pub label_width: usize,
    pub rows_width: usize,
}

// The greatest numbers of the tables in the records. They are found in one pass, since most records of a small file are empty: a pass
// for each number takes five times as long there, and a fold three times.
pub fn greatest_of(records: &[Option<Record<u32>>]) -> Greatest
    ensures depth { result.depth ≡ greatest_of (λ t. t.depth) records.now }
    ensures place { result.place ≡ greatest_of (λ t. t.place) records.now }
    ensures encoding { result.encoding ≡ greatest_of (λ t. t.encoding) records.now }
    ensures rows { result.rows ≡ greatest_of (λ t. t.rows) records.now }
{
    let mut greatest = Greatest {
        depth: 0,
        place: 0,
        encoding: 0,
        rows: 0,
    };
    for slot in records {
        if let Some(record) = slot {
            greatest = greatest.with(record.table);
        }
    }
    greatest
}

impl Greatest {
    // The greatest numbers where there is one table more.
    #[inline(always)]
    fn with(self, table: Table) -> Greatest
        ensures depth { result.depth ≡ max self.depth table.depth }
        ensures place { result.place ≡ max self.place table.place }
        ensures encoding { result.encoding ≡ max self.encoding table.encoding }
        ensures rows { result.rows ≡ max self.rows table.rows }
    {
        Greatest {
            depth: self.depth.max(table.depth),
            place: self.place.max(table.place),
            encoding: self.encoding.max(table.encoding),
            rows: self.rows.max(table.rows),
        }
    }
}

// The greatest of a number of the tables in the records; an empty record counts as `least`.
pub(crate) fn max_of<T: Ord + Copy, F: Fn(Table) -> T>(
    records: &[Option<Record<u32>>],
    least: T,
    number: F,
) -> T
    requires { (state : F) (t : Table) → F.pre state t }
    ensures { (f : Table → T) → ActsAs F.FnMut number f → result ≡ unwrap_or (reduce (λ p z. max_by_ordering (T.cmp p z) p z) (map (number_or least f) records.now)) least }
{
    records
        .iter()
        .map(|slot| slot.map_or(least, |record| number(record.table)))
        .max()
        .unwrap_or(least)
}

// How many digits a number has; 0 has one.
fn digits(number: u64) -> usize
    ensures width { Width number result }
    ensures bound { result ≤ 20 }
{
    number.max(1).ilog10() as usize + 1
}

impl Columns {
    // The columns for the tables of a file: `last` is the last table's number, and the labels are at most `label_width` wide.
    pub fn new(last: u32, greatest: Greatest, label_width: usize) -> Columns
        ensures tree { Width last (result.tree_width - 3 * (greatest.depth - 1)) }
        ensures place { Width greatest.place result.place_width }
        ensures encoding { Width greatest.encoding result.encoding_width }
        ensures label { result.label_width ≡ label_width }
        ensures rows { Width greatest.rows result.rows_width }
    {
        let branches = greatest.depth.saturating_sub(1) as usize;
        Columns {
            tree_width: branches * BRANCH_WIDTH + digits(last as u64),
            place_width: digits(greatest.place as u64),
            encoding_width: digits(greatest.encoding as u64),
            label_width,
            rows_width: digits(greatest.rows),
        }
    }
}
