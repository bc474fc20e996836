//! The words of a line.
ghost use Rattle.std.specs.Prelude.{◌≡◌, ◌≢◌, ◌==◌, ◌<◌, ◌∷◌, ◌++◌, [], ℕ, List, length, map, OnSome, IfSome, IfNone};
ghost use Rattle.std.specs.List.{slice_split};
ghost use Rattle.std.specs.Str.{IsAscii};

use arrayvec::ArrayVec;
use std::str;

/// As many as the longest lines have.
const MOST_WORDS: usize = 6;

/// The words of a line, in order.
pub(crate) type Words<'a> = ArrayVec<&'a str, MOST_WORDS>;

/// The line without its line feed.
pub(crate) fn text(b: &[u8]) -> Option<&str>
    ensures found { IfSome result (λ line. b.now ≡ line.now ++ 10 ∷ []) }
    ensures none { IfNone result ((line : List ℕ) → IsAscii line → b.now ≢ line ++ 10 ∷ []) }
{
    match b {
        [line @ .., b'\n'] => str::from_utf8(line).ok(),
        _ => None,
    }
}

/// Puts one at the end. `None` where there is no room.
fn push_word<'a>(found: &mut Words<'a>, word: &'a str) -> Option<()>
    ensures fits { OnSome result (map (λ w. w.now) found.new.items ≡ map (λ w. w.now) found.old.items ++ word.now ∷ []) }
    ensures full { IfNone result (length (map (λ w. w.now) found.old.items) ≡ MOST_WORDS) }
{
    match found.try_push(word) {
        Ok(()) => Some(()),
        Err(_) => None,
    }
}

/// Fills an empty list with what stands between the spaces. `None` where that is more than any line has.
pub(crate) fn find_words<'a>(line: &'a str, found: &mut Words<'a>) -> Option<()>
    requires { found.old.items ≡ [] }
    ensures few { OnSome result (map (λ w. w.now) found.new.items ≡ slice_split (λ c. c == 32) line.now) }
    ensures many { IfNone result (MOST_WORDS < length (slice_split (λ c. c == 32) line.now)) }
{
    let mut rest = line;
    while let Some((word, after)) = rest.split_once(' ') {
        push_word(found, word)?;
        rest = after;
    }
    push_word(found, rest)
}
