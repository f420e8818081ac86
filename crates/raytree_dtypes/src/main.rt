// Lists the tables of files, each file as a tree, alone or with its dtype and its ids.
#![tactic(auto)]

use listing::{Failure, Lister, exit_code};
use printing::{Names, Sources};
use std::process::ExitCode;
use std::{env, io};

const USAGE: &str =
    "there are two arguments, or more than three; usage: raytree_dtypes TABLES, or raytree_dtypes TABLES DTYPE IDS, or raytree_dtypes alone, with a line on standard input for each: one name, or three with tabs between them";

// Lists what the arguments name, or without any what each line of standard input names. It tells whether every file was read and
// is in order.
fn run(rt: &HostRuntime) -> Result<bool, Failure> {
    let mut lister = Lister::new(rt)?;
    let mut args = env::args(rt)?.skip(1);
    match (args.next(), args.next(), args.next(), args.next()) {
        (None, _, _, _) => {
            // One function for this loop and that of raytree would take a closure, and no public function has a condition, or match
            // on an enum, which is no plainer than two loops.
            for line in rt.lines(rt.alloc()) {
                let names = line?;
                if !names.is_empty() {
                    lister.list_line(names.as_str())?;
                }
            }
        }
        (Some(tables), None, _, _) => lister.list(Sources::Alone(tables.as_str()))?,
        (Some(tables), Some(dtype), Some(ids), None) => {
            lister.list(Sources::Three(Names {
                tables: tables.as_str(),
                dtype: dtype.as_str(),
                ids: ids.as_str(),
            }))?;
        }
        _ => return Err(Failure::Usage(USAGE)),
    }
    Ok(lister.are_listed)
}

fn main(rt: HostRuntime) -> io::Result<ExitCode> {
    exit_code(&rt, "raytree_dtypes", run(&rt))
}
