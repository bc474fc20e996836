//! The program: what its words ask for is done, from standard input to standard output.
#![tactic(auto)]

use capture_runner::{end_without_memory, run};
use port_workers::Open;
use run_io::sinks::StdSink;
use run_io::sources::StdSource;
use std::alloc::Global;
use std::process::ExitCode;
use std::rt::Env;
use std::{env, io};

/// The words after the program's name.
fn words_of(rt: &(impl Env + Alloc<A = Global>)) -> io::Result<Vec<String>> {
    let mut words = Vec::new(rt.alloc());
    for word in env::args(rt)?.skip(1) {
        words.push(word)?;
    }
    Ok(words)
}

fn main(rt: HostRuntime) -> ExitCode {
    let mut source = StdSource::make(rt.reader());
    let mut sink = StdSink::make(io::writer(&rt));
    let status = match words_of(&rt) {
        Ok(words) => run(&rt, rt.alloc(), &words, &mut source, &mut sink, &Open),
        Err(error) if error.kind() == io::ErrorKind::OutOfMemory => end_without_memory(&mut sink),
        // Words that aren't UTF-8 are none that are known.
        Err(_) => run(&rt, rt.alloc(), &[], &mut source, &mut sink, &Open),
    };
    ExitCode::from(status.code())
}
