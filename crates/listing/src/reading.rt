// Files as they are read.
use printing::plural;
use std::fs::File;
use std::io;
use std::io::Read;
use std::rt::Files;

// How many bytes of a file of tables are read: one more than is allowed, so that a longer file is refused and an endless one is
// not read on.
pub const TABLES_BYTES: u64 = tables::MAX_BYTES as u64 + 1;

// How many bytes of a dtype file are read: one more than is allowed.
pub const DTYPE_BYTES: u64 = dtype::MAX_BYTES as u64 + 1;

// How many bytes of a file of ids are read: 65 lines of 64 bytes and a line end. At most 64 such lines are taken, so a longer file
// is refused. Its first bad line is one of the 65, and so much of it is read that the refusal is that of the whole file.
pub const IDS_BYTES: u64 = (ids::MOST_IDS as u64 + 1) * (ids::MOST_BYTES as u64 + 1);

// Reads the first bytes of a file, at most `limit`.
fn read_file(rt: &(impl Files + AllocGlobal), name: &str, limit: u64) -> io::Result<Vec<u8>> {
    let mut bytes = Vec::new(rt.alloc());
    let file = File::open(rt, name)?;
    file.take(limit).read_to_end(&mut bytes)?;
    Ok(bytes)
}

// Prints the name of a file and how many bytes are read of it. There are no bytes where it cannot be read.
pub fn open_file(
    rt: &(impl Files + Print + AllocGlobal),
    name: &str,
    limit: u64,
) -> io::Result<Option<Vec<u8>>> {
    rt.println(name)?;
    match read_file(rt, name, limit) {
        Ok(bytes) => {
            let length = bytes.len();
            println!(rt; "{length} byte{} read", plural(length as u64))?;
            Ok(Some(bytes))
        }
        Err(error) => {
            println!(rt; "cannot be read: {error}")?;
            Ok(None)
        }
    }
}
