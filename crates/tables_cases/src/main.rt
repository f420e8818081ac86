// Compares what the library answers with what the cases of standard input expect. A line holds a case: its name, the limits of
// levels and of tables, the number of records, the expected answer (of two very long lists of tables only how it begins) and the bytes.
// Lines that begin with `#` explain the next cases. `make_cases.py` writes these lines, and says more on their form.
#![tactic(auto)]

mod answers;
mod cases;
mod questions;

use answers::write_answer;
use cases::Case;
use std::io;
use tables::{Part, Record, Table};

// The most records that a case has: a greater number stands for this one.
const MOST_RECORDS: usize = 4097;

// What each record holds before a case, so that one that is not written or emptied shows.
const STALE: Record<u32> = Record {
    table: Table {
        rows: 9,
        metadata: Part { from: 4, count: 1 },
        segments: Part { from: 4, count: 1 },
        place: 4,
        parent: 0,
        depth: 1,
        index: 0,
        children: 0,
        below: 0,
        encoding: 9,
    },
    mark: Some(9),
};

// Runs the case of a line on stale records, prints what came of it, and tells whether that is as expected.
fn run_case(rt: &HostRuntime, line: &str) -> io::Result<bool> {
    let mut records = [Some(STALE); MOST_RECORDS];
    let case = Case::read(rt.alloc(), line).map_err(|_| io::Error::other("a line is no case"))?;
    let records = &mut records[0..case.records.min(MOST_RECORDS)];
    let mut found = String::new(rt.alloc());
    // An answer that ends early, for want of memory, is told by what was written of it: it lacks what is expected, and the case
    // differs, or what is expected came before its end. The cases after it are run all the same.
    let _ = write_answer(&mut found, &case, records);
    let name = case.name;
    // A case of thousands of tables does not list them.
    let is_expected = found.starts_with(case.expected);
    if is_expected {
        println!(rt; "{name}: as expected")?;
    } else {
        println!(rt; "{name}: {found}")?;
    }
    Ok(is_expected)
}

// Runs all cases, and counts those that differ. Each program that replays cases has such a loop:
// what the two share is one chain of calls and a count, and an iterator type with its contract is longer than both.
fn run_all(rt: &HostRuntime) -> io::Result<()> {
    let text = io::read_to_string(rt.alloc(), rt.stdin())?;
    let mut count: u64 = 0;
    let mut differ: u64 = 0;
    for line in text.lines().filter(|line| !line.starts_with('#')) {
        count = count.saturating_add(1);
        if !run_case(rt, line)? {
            differ = differ.saturating_add(1);
        }
    }
    println!(rt; "{count} cases, {differ} differ")?;
    if differ > 0 {
        return Err(io::Error::other("a case differs"));
    }
    Ok(())
}

fn main(rt: HostRuntime) -> io::Result<()> {
    run_all(&rt)
}
