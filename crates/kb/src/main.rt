//! The program `kb`: the real shelf, streams and gate, and the one call that does all the rest.
//!
//! What a run means by its exit status is the contract of `kb_cli::run`. Here are only the adapters, and the arguments,
//! which the system gives as bytes. Arguments that aren't UTF-8 are a usage error.
//!
//! Below are `kb_cli` and `kb_io`.
#![tactic(auto)]

use kb_cli::{ErrorKind, Status, run};
use kb_io::{FileShelf, OpenGate, StdErr, StdIn, StdOut, write_all};
use std::alloc::AllocError;
use std::process::ExitCode;

fn main(rt: HostRuntime) -> ExitCode {
    let alloc = rt.alloc();
    let mut err = StdErr::new(rt.stderr(), &rt);
    let arguments = match std::env::args(&rt) {
        Ok(arguments) => arguments.skip(1).collect::<Vec<String>>(alloc),
        Err(error) if error.kind() == std::io::ErrorKind::InvalidData => {
            let _ = write_all(
                &mut err,
                b"kb: a word of the command line is no UTF-8 text\n",
            );
            return ExitCode::from(Status::Usage(ErrorKind::InvalidValue).exit());
        }
        Err(_) => Err(AllocError),
    };
    let Ok(arguments) = arguments else {
        let _ = write_all(&mut err, b"kb: no memory\n");
        return ExitCode::from(Status::Memory.exit());
    };
    let mut shelf = FileShelf::new(&rt);
    let mut input = StdIn::new(&rt);
    let mut out = StdOut::new(&rt);
    let status = run(
        &rt,
        alloc,
        arguments.as_slice(),
        &mut shelf,
        &mut input,
        &mut out,
        &mut err,
        &OpenGate,
    );
    ExitCode::from(status.exit())
}
