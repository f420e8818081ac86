ghost use Rattle.std.specs.Prelude.{◌≡◌, ℕ, ◌+◌, ◌-◌, ◌*◌, ◌%◌, ◌^◌, ◌<◌, ◌≤◌, length, IfOk};
ghost use Rattle.tables.specs.Step.{fields as fields_of};

use crate::faults::Fault;
use crate::reads::{Bytes, Field, RawTable};
use crate::records::{Part, Record, Table};

// Where in the tree a table is met.
#[derive(Clone, Copy)]
pub struct Spot {
    pub parent: u32,
    pub depth: u32,
    pub index: u32,
}

// The fields of a table that are read before its children.
#[derive(Clone, Copy)]
pub struct Fields {
    pub encoding: u16,
    pub rows: u64,
    pub metadata: Part,
    pub children: Part,
}

// What those fields of a table say.
#[inline(always)]
fn read_fields(table: &RawTable) -> Result<Fields, Fault>
    ensures value { result ≡ fields_of table.now.bytes.bytes.now table.now.vtable table.now.place }
    ensures inside { IfOk result (λ f. f.children.from + f.children.count * 4 ≤ length table.now.bytes.bytes.now) }
{
    Ok(Fields {
        encoding: u16::from_le_bytes(table.scalar(Field::Encoding)?),
        rows: u64::from_le_bytes(table.scalar(Field::Rows)?),
        metadata: table.vector(Field::Metadata, 1)?,
        children: table.vector(Field::Children, 4)?,
    })
}

// A visit of tables: the bytes, how many tables there may be, the records, and how many tables are met. Those of which all that
// is below is visited have their records.
#[derive(Drop)]
pub struct Visit<'b, 'r, M> {
    pub bytes: Bytes<'b>,
    pub most: u32,
    pub records: &'r mut [Option<Record<M>>],
    pub count: u32,
}

// The levels that are left and the depth are two numbers of the definition of a visit. A struct for both would be made for each call
// and taken apart in it, which is no plainer.
impl<M: Copy> Visit<'_, '_, M> {
    ghost use Rattle.tables.specs.Step.{Adds, Keeps, child};
    ghost use Rattle.tables.specs.Visit.{visit, children};

    // The table at a place and all below it. From its own level on there is room for `levels` levels.
    #[cycle(visit)]
    #[inline(always)]
    fn table(&mut self, levels: u32, spot: Spot, place: usize) -> Result<(), Fault>
        requires { spot.depth + levels < 2 ^ 32 }
        ensures adds { Adds (visit levels self.old.bytes.bytes.now self.old.most (length self.old.records.now) spot place self.old.count) self.old.count self.old.records.now result self.new.count self.new.records.now }
        ensures same { Keeps self.old self.new }
    {
        let bytes = self.bytes;
        let raw = bytes.table(place)?;
        let Some(below) = levels.checked_sub(1) else {
            return Err(Fault::TooDeep);
        };
        if self.most <= self.count {
            return Err(Fault::TooManyTables);
        }
        if self.records.len() <= self.count as usize {
            return Err(Fault::NoRecord);
        }
        let fields = read_fields(&raw)?;
        let number = self.count;
        self.count += 1;
        self.below(below, number, spot.depth + 1, fields.children)?;
        let segments = raw.vector(Field::Segments, 4)?;
        let table = Table {
            rows: fields.rows,
            metadata: fields.metadata,
            segments,
            place: place as u32,
            parent: spot.parent,
            depth: spot.depth,
            index: spot.index,
            children: fields.children.count,
            below: self.count - number - 1,
            encoding: fields.encoding,
        };
        self.records[number as usize] = Some(Record { table, mark: None });
        Ok(())
    }

    // The children of a table and all below them. A table without children costs no call.
    #[cycle(visit)]
    #[inline(always)]
    fn below(&mut self, levels: u32, parent: u32, depth: u32, offsets: Part) -> Result<(), Fault>
        requires depth { depth + levels < 2 ^ 32 }
        requires inside { offsets.from + offsets.count * 4 < 2 ^ 32 }
        requires within { self.old.count ≤ length self.old.records.now }
        ensures adds { Adds (children (child levels self.old.bytes.bytes.now self.old.most (length self.old.records.now) parent depth) self.old.bytes.bytes.now offsets.from offsets.count 0 self.old.count) self.old.count self.old.records.now result self.new.count self.new.records.now }
        ensures same { Keeps self.old self.new }
    {
        if offsets.count == 0 {
            return Ok(());
        }
        self.children(levels, parent, depth, offsets)
    }

    // The tables that forward offsets lead to, as the children of a table: each with all below it before the next. At their level
    // there is room for `levels` levels. Their offsets lie inside, so that a place among them is a sum of two `u32`: with sums of `usize`,
    // which ask nothing, verifying takes 5 % longer.
    #[cycle(visit)]
    pub(crate) fn children(
        &mut self,
        levels: u32,
        parent: u32,
        depth: u32,
        offsets: Part,
    ) -> Result<(), Fault>
        requires depth { depth + levels < 2 ^ 32 }
        requires inside { offsets.from + offsets.count * 4 < 2 ^ 32 }
        requires within { self.old.count ≤ length self.old.records.now }
        ensures adds { Adds (children (child levels self.old.bytes.bytes.now self.old.most (length self.old.records.now) parent depth) self.old.bytes.bytes.now offsets.from offsets.count 0 self.old.count) self.old.count self.old.records.now result self.new.count self.new.records.now }
        ensures same { Keeps self.old self.new }
    {
        let bytes = self.bytes;
        for index in 0..offsets.count {
            let place = bytes.forward((offsets.from + 4 * index) as usize)?;
            let spot = Spot {
                parent,
                depth,
                index,
            };
            self.table(levels, spot, place)?;
        }
        Ok(())
    }
}
