//! Lines with their causes, steps and tables with their lines.
mod generates;
mod listings;
mod reads;
mod writes;

use bridge_command::Roster;
use scenario_text::read_line;
use std::alloc::Global;
use std::process::Abort;

/// A roster that has read these lines.
fn roster_of(rt: &impl Abort, alloc: Global, lines: &[&str]) -> Roster {
    let mut roster = Roster::make(alloc, false).expect(rt, "memory");
    for line in lines {
        let read = read_line(alloc, line.as_bytes(), &mut roster);
        assert!(rt; read.is_ok(), "{line}");
    }
    roster
}
