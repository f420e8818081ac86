// A table as a line of the tree.
use printing::{Branches, Columns, Label, plural};
use std::fmt;
use tables::{SegmentIds, Table};

// A table as a line of the tree.
#[derive(Drop)]
pub struct Line<'a> {
    pub columns: Columns,
    pub branches: &'a Branches,
    pub number: u32,
    pub table: Table,
    // The label of the encoding. It may be empty.
    pub label: &'a Label,
    pub metadata: &'a [u8],
    pub segments: SegmentIds<'a>,
}

impl fmt::Display for Line<'_> {
    fn fmt<W: fmt::Write>(&self, f: &mut fmt::Formatter<W>) -> fmt::Result {
        let number = self.number;
        let Table {
            place,
            encoding,
            rows,
            ..
        } = self.table;
        let Columns {
            tree_width,
            place_width,
            encoding_width,
            label_width,
            rows_width,
        } = self.columns;
        let branches = self.branches;
        let number_width = tree_width.saturating_sub(branches.width());
        let ending = plural(rows);
        write!(
            f,
            "{branches}{number:<number_width$} at {place:>place_width$}: encoding {encoding:>encoding_width$}"
        )?;
        write_label(f, self.label)?;
        let blanks = label_width.saturating_sub(self.label.width);
        write!(f, ",{:blanks$} {rows:>rows_width$} row{ending}", "")?;
        write_metadata(f, self.metadata)?;
        write_segments(f, self.segments)
    }
}

// The label of an encoding, if it is not empty.
fn write_label<W: fmt::Write>(f: &mut fmt::Formatter<W>, label: &Label) -> fmt::Result {
    if label.text.is_empty() {
        return Ok(());
    }
    write!(f, " {}", label.text)
}

// The metadata as hex digits, if there is any. It differs from the segments in how an item is written, which a format string says.
fn write_metadata<W: fmt::Write>(f: &mut fmt::Formatter<W>, metadata: &[u8]) -> fmt::Result {
    if metadata.is_empty() {
        return Ok(());
    }
    f.write_str(", metadata")?;
    for byte in metadata {
        write!(f, " {byte:02x}")?;
    }
    Ok(())
}

// The numbers of the segments, if there are any.
fn write_segments<W: fmt::Write>(f: &mut fmt::Formatter<W>, segments: SegmentIds) -> fmt::Result {
    if segments.len() == 0 {
        return Ok(());
    }
    f.write_str(", segments")?;
    for id in segments.iter() {
        write!(f, " {id}")?;
    }
    Ok(())
}
