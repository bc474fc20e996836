//! The first line of some bytes.
ghost use Rattle.std.specs.Prelude.{◌<◌};
ghost use Rattle.transcript_check.specs.Lines.{CutsFront, CutsFirst};

use memchr::memchr;

/// A line without its line feed, and what is behind it.
#[derive(Clone, Copy, Drop)]
pub(crate) struct Parts<'a> {
    pub(crate) line: &'a [u8],
    pub(crate) behind: &'a [u8],
}

/// The first line, where it has a line feed.
pub(crate) fn front(bytes: &[u8]) -> Option<Parts<'_>>
    ensures { CutsFront bytes.now result }
{
    match memchr(b'\n', bytes) {
        Some(at) => Some(Parts {
            line: &bytes[..at],
            behind: &bytes[at + 1..],
        }),
        None => None,
    }
}

/// The first line, with or without its line feed.
pub(crate) fn first_line(bytes: &[u8]) -> Parts<'_>
    ensures { CutsFirst bytes.now result }
{
    match front(bytes) {
        Some(parts) => parts,
        None => Parts {
            line: bytes,
            behind: &[],
        },
    }
}
