//! `rbso`: runs a script of a stated Ruby subset.
#![tactic(auto)]

use rb_edge::{OpenGate, RealFiles, StreamSink};
use rb_prog::run;
use std::process::ExitCode;
use std::rt::Env;
use std::sync::Arc;
use std::{env, io};

/// The status of words that are none of the program's.
const USAGE: u8 = 2;

/// The status of a run for which memory was refused.
const OUT_OF_MEMORY: u8 = 8;

/// The arguments without the program's own name.
fn words<R: Env + AllocGlobal>(rt: &R) -> io::Result<Vec<String>> {
    let mut args = env::args(rt)?;
    args.next();
    Ok(args.collect(rt.alloc())?)
}

/// Runs over the real file, standard output and standard error.
fn main(rt: HostRuntime) -> ExitCode {
    let alloc = rt.alloc();
    let words = match words(&rt) {
        Ok(words) => words,
        Err(error) if error.kind() == io::ErrorKind::InvalidData => return ExitCode::from(USAGE),
        Err(_) => return ExitCode::from(OUT_OF_MEMORY),
    };
    let Ok(gate) = Arc::new(alloc, OpenGate {}) else {
        return ExitCode::from(OUT_OF_MEMORY);
    };
    let mut files = RealFiles::new(alloc, &rt);
    let mut err = StreamSink::new(rt.stderr());
    let report = run(
        &rt,
        alloc,
        words.as_slice(),
        &mut files,
        StreamSink::new(rt.stdout()),
        &mut err,
        gate,
    );
    report.exit_code()
}
