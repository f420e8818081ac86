// Files as they are printed. A file that cannot be read or is refused is printed as such.
ghost use Rattle.std.specs.Prelude.{◌≡◌, replicate, IfOk, None as Nothing};

use crate::drawing::Line;
use crate::dtypes::print_dtype;
use crate::failures::Failure;
use crate::reading::{DTYPE_BYTES, IDS_BYTES, TABLES_BYTES, open_file};
use dtype::DTypeText;
use printing::{Branches, Columns, Labels, Names, greatest_of, is_last_child, plural};
use std::alloc::AllocError;
use std::io;
use std::rt::Files;
use tables::{Limits, Record, Tables};

// A record for each table that the limits allow.
const RECORDS: usize = Limits::GREATEST.tables as usize;

// Prints files on the standard output.
#[derive(Drop)]
pub struct Printer<'r, R> {
    rt: &'r R,
    // The records of one file's tables.
    pub records: Vec<Option<Record<u32>>>,
}

// A file of tables that is verified.
#[derive(Drop)]
struct Verified {
    bytes: Vec<u8>,
    // How many tables there are.
    count: u32,
}

// Each kind of file has a reader and a refusal of its own, and one refusal may lack a number. A function for all three would take the
// reader and what is printed as closures, which is no plainer.
impl<'r, R: Files + Print + AllocGlobal> Printer<'r, R> {
    // A printer whose records are empty.
    pub fn new(rt: &'r R) -> Result<Printer<'r, R>, AllocError>
        ensures { IfOk result (λ p. p.records.items ≡ replicate 4096 Nothing) }
    {
        Ok(Printer {
            rt,
            records: vec![in rt.alloc(); None; RECORDS]?,
        })
    }

    // Prints a file of tables alone. It tells whether the file was read and verified.
    pub fn list_tables(&mut self, name: &str) -> Result<bool, Failure> {
        let Some(file) = self.open_tables(name)? else {
            return Ok(false);
        };
        self.print_tables(&file, &Labels::empty(self.rt.alloc()))?;
        Ok(true)
    }

    // Prints a file of tables with its dtype file and its ids file. It tells whether all three were read and are in order.
    pub fn list_three(&mut self, names: Names) -> Result<bool, Failure> {
        let opened = self.open_tables(names.tables)?;
        let has_dtype = self.list_dtype(names.dtype)?;
        let ids = self.list_ids(names.ids)?;
        let has_ids = ids.is_some();
        let Some(file) = opened else {
            return Ok(false);
        };
        let labels = ids.unwrap_or(Labels::empty(self.rt.alloc()));
        self.print_tables(&file, &labels)?;
        Ok(has_dtype && has_ids)
    }

    // Reads and verifies a file of tables.
    fn open_tables(&mut self, name: &str) -> io::Result<Option<Verified>> {
        let Some(bytes) = open_file(self.rt, name, TABLES_BYTES)? else {
            return Ok(None);
        };
        match tables::verify(
            bytes.as_slice(),
            Limits::GREATEST,
            self.records.as_mut_slice(),
        ) {
            Ok(count) => Ok(Some(Verified { bytes, count })),
            Err(fault) => {
                println!(self.rt; "refused: {}, {fault}", fault.number())?;
                Ok(None)
            }
        }
    }

    // Prints how many tables and levels there are, and then a line for each table, in the order of their numbers.
    fn print_tables(&self, file: &Verified, labels: &Labels) -> Result<(), Failure> {
        let records = self.records.as_slice();
        let tables = Tables {
            bytes: file.bytes.as_slice(),
            records,
        };
        let count = file.count;
        let greatest = greatest_of(records);
        let levels = greatest.depth;
        println!(self.rt;
            "verified: {count} table{}, {levels} level{} deep",
            plural(count as u64),
            plural(levels as u64)
        )?;
        let columns = Columns::new(count.saturating_sub(1), greatest, labels.widest(records));
        let mut branches = Branches::new(self.rt.alloc());
        for number in 0..count {
            let table = tables.table_at(number)?;
            if number > 0 {
                let parent = tables.table_at(table.parent)?;
                branches.enter(table.depth, is_last_child(table, parent))?;
            }
            self.rt.println(Line {
                columns,
                branches: &branches,
                number,
                table,
                label: labels.get(table.encoding),
                metadata: tables.metadata(number)?,
                segments: tables.segments(number)?,
            })?;
        }
        Ok(())
    }

    // Lists a dtype file. It tells whether the file was read and is a dtype.
    fn list_dtype(&self, name: &str) -> io::Result<bool> {
        let Some(bytes) = open_file(self.rt, name, DTYPE_BYTES)? else {
            return Ok(false);
        };
        match DTypeText::read(self.rt.alloc(), bytes.as_slice()) {
            Ok(text) => {
                let count = text.line_count();
                println!(self.rt; "{count} line{}", plural(count as u64))?;
                print_dtype(self.rt, &text)?;
                Ok(true)
            }
            Err(fault) => {
                match fault.number() {
                    Some(number) => println!(self.rt; "refused: {number}, {fault}")?,
                    None => println!(self.rt; "cannot be read: {fault}")?,
                }
                Ok(false)
            }
        }
    }

    // Lists a file of ids, and gives them as labels if the file was read and is in order.
    fn list_ids(&self, name: &str) -> io::Result<Option<Labels>> {
        let Some(bytes) = open_file(self.rt, name, IDS_BYTES)? else {
            return Ok(None);
        };
        match ids::read(bytes.as_slice()) {
            Ok(list) => {
                let labels = Labels::new(self.rt.alloc(), &list)?;
                self.print_ids(&labels)?;
                Ok(Some(labels))
            }
            Err(fault) => {
                println!(self.rt; "refused: {}, {fault}", fault.number())?;
                Ok(None)
            }
        }
    }

    // Prints how many ids there are, and each after its place.
    fn print_ids(&self, labels: &Labels) -> io::Result<()> {
        let count = labels.known.len();
        println!(self.rt; "{count} id{}", plural(count as u64))?;
        for (place, label) in labels.known.iter().enumerate() {
            println!(self.rt; "{place:>2} {}", label.text)?;
        }
        Ok(())
    }
}
