//! `explain`: shows a space of a run behind one of its own events, or at its end. It makes the real loader and the real sinks, and ends with the
//! status of the end.
#![tactic(auto)]

use det_cli::End as Failure;
use det_host::{FileLoader, StdSink};
use explain_cli::{End, explain_main, status, write_line};
use std::alloc::AllocError;
use std::env;
use std::io::ErrorKind;
use std::process::ExitCode;

// The words of the command line. If they cannot be read, there are none: a usage error. (Want of memory is an error of its own.)
fn words(rt: &HostRuntime) -> Result<Vec<String>, AllocError> {
    let alloc = rt.alloc();
    match env::args(rt) {
        Ok(args) => match args.collect(alloc) {
            Ok(words) => Ok(words),
            Err(_) => Err(AllocError),
        },
        Err(error) => {
            if error.kind() == ErrorKind::OutOfMemory {
                Err(AllocError)
            } else {
                Ok(Vec::new(alloc))
            }
        }
    }
}

fn main(rt: HostRuntime) -> ExitCode {
    let alloc = rt.alloc();
    let mut out = StdSink::new(rt.stdout());
    let mut err = StdSink::new(rt.stderr());
    let Ok(words) = words(&rt) else {
        let end = End::Failed(Failure::NoMemory);
        let _ = write_line(alloc, &end, &mut err);
        return ExitCode::from(status(&end));
    };
    let mut files = FileLoader::new(rt);
    let exit = explain_main(alloc, &words, &mut files, &mut out, &mut err);
    ExitCode::from(exit.status)
}
