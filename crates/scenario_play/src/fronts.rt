//! The first line of some bytes.
ghost use Rattle.scenario_play.specs.Fronts.{CutsFront};

use memchr::memchr;

/// A line without its line feed, and what is behind it.
#[derive(Clone, Copy, Drop)]
pub struct Front<'a> {
    pub line: &'a [u8],
    pub behind: &'a [u8],
}

/// The first line, where it has a line feed.
pub fn first_line(bytes: &[u8]) -> Option<Front<'_>>
    ensures { CutsFront bytes.now result }
{
    match memchr(b'\n', bytes) {
        Some(at) => Some(Front {
            line: &bytes[..at],
            behind: &bytes[at + 1..],
        }),
        None => None,
    }
}
