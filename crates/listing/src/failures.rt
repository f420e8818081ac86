ghost use Rattle.std.specs.Prelude.{◌≡◌, IfOk};
ghost use Rattle.std.specs.Process.{exit_status};
ghost use Rattle.listing.specs.Status.{status_of};

use std::alloc::AllocError;
use std::io;
use std::process::ExitCode;
use tables::Missing;
use thiserror::Error;

// Why a program that lists files cannot go on.
#[derive(Debug, Drop, Error)]
pub enum Failure {
    // The arguments are not those that the program takes, which the text tells.
    #[error("{0}")]
    Usage(&'static str),
    // Names cannot be read, or nothing can be printed.
    #[error("stopped: {0}")]
    Stopped(#[from] io::Error),
    #[error("stopped: out of memory")]
    Memory(#[from(alloc)] AllocError),
    // A table that was counted is not there.
    #[error(transparent)]
    Missing(#[from] Missing),
}

// How a program ends: with status 0 where every file was listed, and otherwise with 1. A failure is told on the standard error.
pub fn exit_code(
    rt: &impl Eprint,
    program: &str,
    outcome: Result<bool, Failure>,
) -> io::Result<ExitCode>
    ensures { IfOk result (λ code. exit_status code ≡ status_of outcome) }
{
    match outcome {
        Ok(true) => return Ok(ExitCode::SUCCESS),
        Ok(false) => {}
        Err(failure) => eprintln!(rt; "{program}: {failure}")?,
    }
    Ok(ExitCode::FAILURE)
}
