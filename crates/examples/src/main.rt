//! Runs the examples beside it (`data/`), and tells of each whether what is written is what stands there.
//!
//! The words are names of files there, each with what one command writes: `NAME.transcript` is what `replay` writes of
//! `NAME.scenario`, `NAME.fdb`, `NAME.vlan` and `NAME.mdb` what `show` writes of it with that word, `NAME.audit` what `audit` does, and
//! `NAME.checked` what `check` writes of it with the transcript behind it. `NAME.live` is what one run of `live` wrote of it, and
//! `NAME.live_checked` what `check` writes of that.
#![tactic(auto)]

use capture_runner::run;
use port_workers::Open;
use run_io::sinks::MemSink;
use run_io::sources::MemSource;
use std::alloc::Global;
use std::rt::{Env, Files};
use std::sync::Wait;
use std::thread::Threads;
use std::{env, fs, io};

/// The room of a sink: no example writes as much.
const ROOM: u32 = 1 << 20;

/// The words of the command whose output has this ending, if there is one.
fn command_of(ending: &str) -> Option<&'static [&'static str]> {
    match ending {
        "transcript" => Some(&["replay"]),
        "fdb" => Some(&["show", "fdb"]),
        "vlan" => Some(&["show", "vlan"]),
        "mdb" => Some(&["show", "mdb"]),
        "audit" => Some(&["audit"]),
        "checked" | "live_checked" => Some(&["check"]),
        _ => None,
    }
}

/// What these words write of this input.
fn written(
    rt: &(impl Threads + Wait + Sync),
    alloc: Global,
    words: &[&str],
    input: Vec<u8>,
) -> io::Result<Vec<u8>> {
    let mut owned = Vec::new(alloc);
    for word in words {
        owned.push(String::from_str(alloc, *word)?)?;
    }
    let mut source = MemSource::make(input, Vec::new(alloc));
    let mut sink = MemSink::make(alloc, ROOM, Vec::new(alloc))?;
    let _status = run(rt, alloc, &owned, &mut source, &mut sink, &Open);
    Ok(Vec::from_slice(alloc, sink.bytes())?)
}

/// The input of the command whose output has this ending.
fn input_of<R: Files + Alloc<A = Global>>(rt: &R, name: &str, ending: &str) -> io::Result<Vec<u8>> {
    if ending == "live_checked" {
        return fs::read(rt, format!(in rt.alloc(); "{name}.live")?);
    }
    let mut input = fs::read(rt, format!(in rt.alloc(); "{name}.scenario")?)?;
    if ending == "checked" {
        let transcript = fs::read(rt, format!(in rt.alloc(); "{name}.transcript")?)?;
        input.extend_from_slice(&transcript)?;
    }
    Ok(input)
}

/// Whether the file holds what its command writes of what stands beside it.
fn is_written<R: Files + Threads + Wait + Sync + Alloc<A = Global>>(
    rt: &R,
    file: &str,
) -> io::Result<bool> {
    let Some((name, ending)) = file.split_once('.') else {
        return Ok(false);
    };
    let Some(words) = command_of(ending) else {
        return Ok(false);
    };
    let input = input_of(rt, name, ending)?;
    let wanted = fs::read(rt, file)?;
    Ok(written(rt, rt.alloc(), words, input)? == wanted)
}

fn main(rt: HostRuntime) -> io::Result<()> {
    for file in env::args(&rt)?.skip(1) {
        let answer = if is_written(&rt, &file)? {
            "is written"
        } else {
            "differs"
        };
        println!(rt; "{file} {answer}")?;
    }
    Ok(())
}
