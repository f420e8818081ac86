// Entry points for C: verifying bytes, and walking the tables that verified bytes hold.
#![tactic(auto)]

ghost use Rattle.std.specs.Prelude.{◌≡◌, ℕ, List, length, Some as Given, Ok as Answered};
ghost use Rattle.std.specs.List.{FoldsTo, last_or};
ghost use Rattle.tables.specs.Answer.{table_at, metadata_at, segments_at};
ghost use Rattle.tables_c.specs.Tell.{told, last_of, told_of};
ghost use Rattle.tables_c.specs.Walk.{fields_sum, metadata_sum, segments_sum, table_sum, tables_sum, walk_of};

use tables::{Fault, Limits, Record, SegmentIds, Tables};

// What verifying tells: the number of tables, or 2^32 plus the number of the refusal. It is a number, since C has no Result.
fn tell(verified: Result<u32, Fault>) -> u64
    ensures { result ≡ told verified }
{
    match verified {
        Ok(count) => count as u64,
        Err(fault) => 0x1_0000_0000 + fault.number() as u64,
    }
}

// Runs a round a number of times, and tells what the last gave, or 0 where there is no round.
fn repeat<F: FnMut() -> u64>(rounds: u32, mut round: F) -> u64
    requires { F.IsAlwaysCallable round }
    ensures { (given : List ℕ) × (after : F) × FoldsTo F.step round given after × (length given ≡ rounds) × (Given result ≡ last_or (Given 0) given) }
{
    let mut last = 0;
    for _ in 0..rounds {
        last = round();
    }
    last
}

// Verifies the bytes in each round, and tells what the last round found.
fn verify_often(bytes: &[u8], rounds: u32, records: &mut [Option<Record<u32>>]) -> u64
    ensures { result ≡ last_of rounds (told_of bytes.now (length records.old)) }
{
    repeat(
        rounds,
        || tell(tables::verify(bytes, Limits::GREATEST, records)),
    )
}

// Verifies the bytes `rounds` times with the greatest limits and 4,096 records, which lie in fixed memory, since C lends no
// allocator. It tells the number of tables, or 2^32 plus the number of the refusal, and 0 where there is no round.
#[unsafe(no_mangle)]
pub extern "C" fn tables_verify(bytes: &[u8], rounds: u32) -> u64
    ensures { result ≡ last_of rounds (told_of bytes.now 4096) }
{
    let mut records: [Option<Record<u32>>; 4096] = [None; 4096];
    verify_often(bytes, rounds, &mut records)
}

// What a table's rows and encoding add to a walk.
fn sum_fields(tables: &Tables<u32>, number: u32) -> u64
    ensures { result ≡ fields_sum (table_at tables.now.records.now number) }
{
    tables
        .table_at(number)
        .map_or(0, |table| table.rows.wrapping_add(table.encoding as u64))
}

// The length of some bytes, and the first of them if there is one.
fn length_and_first(bytes: &[u8]) -> u64
    ensures { result ≡ metadata_sum (Answered bytes.now) }
{
    let first = bytes.first().map_or(0, |&byte| byte as u64);
    (bytes.len() as u64).wrapping_add(first)
}

// What a table's metadata adds to a walk.
fn sum_metadata(tables: &Tables<u32>, number: u32) -> u64
    ensures { result ≡ metadata_sum (metadata_at tables.now.bytes.now tables.now.records.now number) }
{
    tables.metadata(number).map_or(0, length_and_first)
}

// The sum of the numbers of some segments.
fn sum_numbers(segments: SegmentIds) -> u64
    ensures { result ≡ segments_sum (Answered segments.entry.bytes.now) }
{
    segments
        .iter()
        .fold(0u64, |sum, number| sum.wrapping_add(number as u64))
}

// What a table's segments add to a walk.
fn sum_segments(tables: &Tables<u32>, number: u32) -> u64
    ensures { result ≡ segments_sum (segments_at tables.now.bytes.now tables.now.records.now number) }
{
    tables.segments(number).map_or(0, sum_numbers)
}

// What a table adds to a walk.
fn sum_table(tables: &Tables<u32>, number: u32) -> u64
    ensures { result ≡ table_sum tables.now.bytes.now tables.now.records.now number }
{
    let fields = sum_fields(tables, number);
    let metadata = sum_metadata(tables, number);
    let segments = sum_segments(tables, number);
    fields.wrapping_add(metadata).wrapping_add(segments)
}

// What the tables of all numbers below `count` add up to.
fn sum_tables(tables: &Tables<u32>, count: u32) -> u64
    ensures { result ≡ tables_sum tables.now.bytes.now tables.now.records.now count }
{
    (0..count).fold(
        0u64,
        |sum, number| sum.wrapping_add(sum_table(tables, number)),
    )
}

// Verifies the bytes once, and then walks their tables in each round.
fn walk_often(bytes: &[u8], rounds: u32, records: &mut [Option<Record<u32>>]) -> u64
    ensures { result ≡ walk_of bytes.now rounds (length records.old) }
{
    match tables::verify(bytes, Limits::GREATEST, records) {
        Ok(count) => {
            let tables = Tables { bytes, records };
            repeat(rounds, || sum_tables(&tables, count))
        }
        Err(_) => 0,
    }
}

// Verifies the bytes once with the greatest limits and 4,096 records, which lie in fixed memory as those of `tables_verify`, and then
// walks all tables `rounds` times by their numbers. A walk adds up, for each table, its encoding, its rows, the length of its
// metadata, the first byte of its metadata if there is one, and the numbers of its segments. It tells the sum of the last round, and
// 0 where the bytes are refused or there is no round.
#[unsafe(no_mangle)]
pub extern "C" fn tables_walk(bytes: &[u8], rounds: u32) -> u64
    ensures { result ≡ walk_of bytes.now rounds 4096 }
{
    let mut records: [Option<Record<u32>>; 4096] = [None; 4096];
    walk_often(bytes, rounds, &mut records)
}
