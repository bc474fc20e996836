//! How scenarios begin: their ports come up, and that is published.
use std::alloc::Global;
use std::process::Abort;

/// Ports 1 to 3 of software.
pub(super) const SOFT: &str = "scenario 1
port 1 p1 soft
port 2 p2 soft
port 3 p3 soft
cmd port up p1 => ok 1 3
cmd port up p2 => ok 2 3
cmd port up p3 => ok 3 3
publish => ok 4 0
";

/// Ports 1 and 2 of a chip and port 3 of software, behind the first line.
const CHIP: &str = "port 1 c1 chip 1
port 2 c2 chip 1
port 3 f3 soft
cmd port up c1 => ok 1 3
cmd port up c2 => ok 2 3
cmd port up f3 => ok 3 3
publish => ok 4 0
";

/// Ports 1 and 2 of a chip and port 3 of software in this edition, and what follows.
pub(super) fn with_chip(rt: &impl Abort, alloc: Global, edition: u8, rest: &str) -> String {
    format!(in alloc; "scenario {edition}\n{CHIP}{rest}").expect(rt, "memory")
}
