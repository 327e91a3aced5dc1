//! The program `nd`: commands over the files of a folder.
#![tactic(auto)]

use nd_top::{dir, nd_top};
use rig_trait::{FileRig, FileSource, StdSource};
use run_edges::Status;
use std::alloc::{AllocError, Global};
use std::env;
use std::io::ErrorKind;
use std::process::ExitCode;
use std::random::RandomSource;
use thiserror::Error;

/// Why nothing was run, and nothing said.
#[derive(Debug, Drop, Error)]
enum StartFault {
    #[error("the words cannot be had")]
    Words,
    #[error("the seed cannot be drawn")]
    Seed,
    #[error("memory was refused")]
    Memory(#[from] AllocError),
}

fn main(rt: HostRuntime) -> ExitCode {
    let status = match run(rt) {
        Ok(status) => status,
        Err(StartFault::Words) => 10,
        Err(StartFault::Seed) => 11,
        Err(StartFault::Memory(_)) => Status::Memory.code(),
    };
    ExitCode::from(status)
}

/// Runs the arguments over the files and the standard input, and gives the status.
fn run(rt: HostRuntime) -> Result<u8, StartFault> {
    let alloc = rt.alloc();
    let words = words_of(&rt, alloc)?;
    let seed = draw_seed(&rt)?;
    let dir = dir(&words);
    let mut rig = FileRig::new(rt, alloc, dir)?;
    let mut nfit = FileSource::new(rt, alloc, &format!(in alloc; "{dir}/nfit.bin")?)?;
    let mut input = StdSource::new(rt.stdin());
    Ok(nd_top(alloc, &words, &mut rig, &mut nfit, &mut input, seed))
}

/// The arguments behind the program's name.
fn words_of(rt: &HostRuntime, alloc: Global) -> Result<Vec<String>, StartFault> {
    let arguments = match env::args(rt) {
        Ok(arguments) => arguments,
        Err(error) if error.kind() == ErrorKind::OutOfMemory => {
            return Err(StartFault::Memory(AllocError));
        }
        Err(_) => return Err(StartFault::Words),
    };
    Ok(arguments.skip(1).collect(alloc)?)
}

/// A seed from the random source of the system.
fn draw_seed(rt: &HostRuntime) -> Result<u128, StartFault> {
    let mut bytes = [0; 16];
    match rt.fill_bytes(&mut bytes) {
        Ok(()) => Ok(u128::from_be_bytes(bytes)),
        Err(_) => Err(StartFault::Seed),
    }
}
