//! Bytes, cut at their line feeds.
ghost use Rattle.section_lines.specs.Fronts.{CutsFront};

use memchr::memchr;

/// The first line of some bytes, without its line feed, and what is behind it.
#[derive(Clone, Copy, Drop)]
pub struct Line<'a> {
    pub bytes: &'a [u8],
    pub behind: &'a [u8],
}

/// The first line, where it has a line feed.
pub fn front(bytes: &[u8]) -> Option<Line<'_>>
    ensures { CutsFront bytes.now result }
{
    match memchr(b'\n', bytes) {
        Some(at) => Some(Line {
            bytes: &bytes[..at],
            behind: &bytes[at + 1..],
        }),
        None => None,
    }
}
