use crate::cases::Case;
use crate::questions::all_is_right;
use std::alloc::AllocError;
use std::fmt::Write;
use tables::{Record, Tables, verify};

// Has a case verified, and writes the answer: `refused:N;`, or `accepted:N;` and the N tables, each in the form of `write_table`.
// If a record or an answer to a question is wrong beside that, this comes first.
pub fn write_answer(
    text: &mut String,
    case: &Case<'_>,
    records: &mut [Option<Record<u32>>],
) -> Result<(), AllocError> {
    let bytes = case.bytes.as_slice();
    let outcome = verify(bytes, case.limits, records);
    let count = outcome.unwrap_or(0);
    let tables = Tables { bytes, records };
    if !all_is_right(&tables, count) {
        text.push_str("a wrong record, or a wrong answer to a question, and ")?;
    }
    match outcome {
        Ok(count) => write!(text, "accepted:{count};")?,
        Err(fault) => write!(text, "refused:{};", fault.number())?,
    }
    for number in 0..count {
        write_table(text, &tables, number)?;
    }
    Ok(())
}

// Writes the table of a number: `place/parent/depth/index/encoding/rows/metadata/children/below/segments;`, where metadata and
// segments begin with the place of their first element.
fn write_table(
    text: &mut String,
    tables: &Tables<'_, '_, u32>,
    number: u32,
) -> Result<(), AllocError> {
    let (Ok(table), Ok(metadata), Ok(segments)) = (
        tables.table_at(number),
        tables.metadata(number),
        tables.segments(number),
    ) else {
        return text.push_str("a table is missing;");
    };
    write!(
        text,
        "{}/{}/{}/{}/",
        table.place, table.parent, table.depth, table.index
    )?;
    write!(
        text,
        "{}/{}/{}:",
        table.encoding, table.rows, table.metadata.from
    )?;
    // Each byte is written by itself: the digits of all of them would stand a second time, beside the text.
    for byte in metadata {
        write!(text, "{byte:02x}")?;
    }
    write!(
        text,
        "/{}/{}/{}",
        table.children, table.below, table.segments.from
    )?;
    for id in segments.iter() {
        write!(text, ":{id}")?;
    }
    text.push_str(";")
}
