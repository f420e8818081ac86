// Lists the tables of files, each file as a tree.
#![tactic(auto)]

use listing::{Failure, Lister, exit_code};
use printing::Sources;
use std::process::ExitCode;
use std::{env, io};

const USAGE: &str =
    "there is more than one argument; usage: raytree TABLES, or raytree alone, with the names of files on standard input, one a line";

// Lists what the argument names, or without one what each line of standard input names. It tells whether every file was read and
// verified.
fn run(rt: &HostRuntime) -> Result<bool, Failure> {
    let mut lister = Lister::new(rt)?;
    let mut args = env::args(rt)?.skip(1);
    match (args.next(), args.next()) {
        (None, _) => {
            // One function for this loop and that of raytree_dtypes would take a closure, and no public function has a condition, or match
            // on an enum, which is no plainer than two loops.
            for line in rt.lines(rt.alloc()) {
                let name = line?;
                if !name.is_empty() {
                    lister.list(Sources::Alone(name.as_str()))?;
                }
            }
        }
        (Some(name), None) => lister.list(Sources::Alone(name.as_str()))?,
        (Some(_), Some(_)) => return Err(Failure::Usage(USAGE)),
    }
    Ok(lister.are_listed)
}

fn main(rt: HostRuntime) -> io::Result<ExitCode> {
    exit_code(&rt, "raytree", run(&rt))
}
