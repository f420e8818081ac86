ghost use Rattle.std.specs.Prelude.{◌≡◌, ℕ, ◌+◌, ◌-◌, ◌*◌, ◌/◌, ◌^◌, ◌<◌, ◌≤◌, max, List, length, IfOk, Ok as Answered, Err as Refused, MatchResult};
ghost use Rattle.tables.specs.Format.{Layout};
ghost use Rattle.tables.specs.Visit.{top};
ghost use Rattle.tables.specs.Listing.{Holds};
ghost use Rattle.tables.specs.Question.{TellsOf, Over, ChildIs, layout_at, spot_at, metadata_of, segments_of, numbers_in};
ghost use Rattle.tables.specs.Answer.{table_at, part_in, metadata_at, segments_at};

use crate::faults::Missing;
use crate::records::{Part, Record, Table};
use crate::segments::SegmentIds;

// The records that verifying made, and the bytes that it read. What is told of metadata and segments borrows the bytes alone.
#[derive_where(Clone, Copy)]
pub struct Tables<'b, 'r, M> {
    pub bytes: &'b [u8],
    pub records: &'r [Option<Record<M>>],
}

impl<'b, M> Tables<'b, '_, M> {
    // What the record of a number holds. Of records that verifying made, it tells of the table that was visited in that turn.
    pub fn table_at(&self, number: u32) -> Result<Table, Missing>
        ensures value { result ≡ table_at self.now.records.now number }
        ensures tree { (b : List ℕ) (T : Layout) → Holds b T self.now.records.now → TellsOf (layout_at T number) (spot_at T top 0 number) b result }
    {
        match self.records.get(number as usize) {
            Some(Some(record)) => Ok(record.table),
            _ => Err(Missing::Table),
        }
    }

    // The bytes of a vector's elements, `width` each, if they lie inside.
    fn elements(&self, part: Part, width: u8) -> Result<&'b [u8], Missing>
        ensures { MatchResult result (λ s. part_in width self.now.bytes.now part ≡ Answered s.now) (λ e. part_in width self.now.bytes.now part ≡ Refused e) }
    {
        let from = part.from as usize;
        let end = from + part.count as usize * width as usize;
        self.bytes.get(from..end).ok_or(Missing::Table)
    }

    // The metadata of a table, as a part of the bytes.
    pub fn metadata(&self, number: u32) -> Result<&'b [u8], Missing>
        ensures value { MatchResult result (λ s. metadata_at self.now.bytes.now self.now.records.now number ≡ Answered s.now) (λ e. metadata_at self.now.bytes.now self.now.records.now number ≡ Refused e) }
        ensures tree { (T : Layout) → Holds self.now.bytes.now T self.now.records.now → MatchResult result (λ s. metadata_of (layout_at T number) ≡ Answered s.now) (λ e. metadata_of (layout_at T number) ≡ Refused e) }
    {
        let table = self.table_at(number)?;
        self.elements(table.metadata, 1)
    }

    // The segments of a table, as a part of the bytes.
    pub fn segments(&self, number: u32) -> Result<SegmentIds<'b>, Missing>
        ensures value { MatchResult result (λ s. segments_at self.now.bytes.now self.now.records.now number ≡ Answered s.bytes.now) (λ e. segments_at self.now.bytes.now self.now.records.now number ≡ Refused e) }
        ensures tree { (T : Layout) → Holds self.now.bytes.now T self.now.records.now → MatchResult result (λ s. segments_of (layout_at T number) ≡ Answered (numbers_in s.bytes.now)) (λ e. segments_of (layout_at T number) ≡ Refused e) }
    {
        let table = self.table_at(number)?;
        let bytes = self.elements(table.segments, 4)?;
        Ok(SegmentIds { bytes })
    }

    // The number of the k-th child of a table, from 0. The numbers below the table are halved until that child is met. The slices'
    // binary search does not fit, since a probe climbs from the middle to a child, and what is left then begins behind that child.
    pub fn child(&self, number: u32, k: u32) -> Result<u32, Missing>
        ensures { (b : List ℕ) (T : Layout) → Holds b T self.now.records.now → ChildIs T number k result }
    {
        let table = self.table_at(number)?;
        if k >= table.children {
            return Err(Missing::Child);
        }
        let mut low = number as u64 + 1;
        let mut high = low + table.below as u64;
        while low < high {
            let middle = low + (high - low) / 2;
            let found = self.child_over(number, middle)?;
            let sibling = self.table_at(found)?;
            if sibling.index == k {
                return Ok(found);
            }
            if k < sibling.index {
                high = found as u64;
            } else {
                low = after(found, sibling.below, middle);
            }
        }
        Err(Missing::Table)
    }

    // The child of a table to which the table of number `below` belongs, which may be that one itself. The loop follows parents up; it
    // counts nothing.
    fn child_over(&self, number: u32, below: u64) -> Result<u32, Missing>
        ensures bound { IfOk result (λ c. c ≤ below) }
        ensures tree { (b : List ℕ) (T : Layout) → Holds b T self.now.records.now → Over (layout_at T number) number below result }
    {
        let Ok(mut node) = u32::try_from(below) else {
            return Err(Missing::Table);
        };
        loop {
            let table = self.table_at(node)?;
            if table.parent == number {
                return Ok(node);
            }
            if table.parent >= node {
                return Err(Missing::Table);
            }
            node = table.parent;
        }
    }
}

// The first number after a table and all below it, and in any case one after `middle`.
fn after(number: u32, below: u32, middle: u64) -> u64
    requires { middle < 2 ^ 34 }
    ensures { result ≡ max (number + below + 1) (middle + 1) }
{
    (number as u64 + below as u64 + 1).max(middle + 1)
}
