//! `det`: runs images and assembles sources. It makes the real loader and the real sinks, and ends with the status of the end.
#![tactic(auto)]

use det_cli::{End, det_program, status, write_fault};
use det_host::{FileLoader, OpenGate, StdSink};
use std::alloc::AllocError;
use std::env;
use std::io::ErrorKind;
use std::process::ExitCode;

// The words of the command line. If they cannot be read, there are none: a usage error. (Want of memory is an error of its own.) It stands apart for the
// place that the loop over instructions gets behind it in the program: there it lies well (benchmarks/jumps).
#[inline(never)]
fn words(rt: &HostRuntime) -> Result<Vec<String>, AllocError> {
    let alloc = rt.alloc();
    match env::args(rt) {
        Ok(args) => match args.collect(alloc) {
            Ok(words) => Ok(words),
            Err(_) => Err(AllocError),
        },
        Err(error) => {
            if error.kind() == ErrorKind::OutOfMemory {
                Err(AllocError)
            } else {
                Ok(Vec::new(alloc))
            }
        }
    }
}

fn main(rt: HostRuntime) -> ExitCode {
    let mut out = StdSink::new(rt.stdout());
    let mut err = StdSink::new(rt.stderr());
    let Ok(words) = words(&rt) else {
        let _ = write_fault(rt.alloc(), &End::NoMemory, &mut err);
        return ExitCode::from(status(&End::NoMemory));
    };
    let mut files = FileLoader::new(rt);
    let exit = det_program(&rt, &words, &mut files, &mut out, &mut err, &OpenGate);
    ExitCode::from(exit.status)
}
