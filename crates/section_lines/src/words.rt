//! The words of a line.
ghost use Rattle.std.specs.Prelude.{◌≡◌, ◌<◌, ◌∷◌, ◌++◌, [], length, map, OnSome, IfNone};
ghost use Rattle.br_model.specs.Text.Words.{readable as readable_of, words};
ghost use Rattle.scenario_text.specs.Parts.{words_among};

use arrayvec::ArrayVec;
use memchr::memchr;
use std::str;

/// More words than any form has.
const MOST_WORDS: usize = 12;

/// The words of a line, in order.
pub type Words<'a> = ArrayVec<&'a str, MOST_WORDS>;

/// Stands for a word with a byte above 0x7F, which is no word of a form and no operand.
const UNREADABLE: &str = "\u{FFFD}";

fn readable(word: &[u8]) -> &str
    ensures { result.now ≡ readable_of word.now }
{
    if !word.is_ascii() {
        return UNREADABLE;
    }
    // It is ASCII.
    unsafe { str::from_utf8_unchecked(word) }
}

/// Puts what stands between two spaces at the end, if it is a word. `None` where there is no room.
fn push_word<'a>(found: &mut Words<'a>, part: &'a [u8]) -> Option<()>
    ensures fits { OnSome result (map (λ w. w.now) found.new.items ≡ map (λ w. w.now) found.old.items ++ words_among (part.now ∷ [])) }
    ensures full { IfNone result (MOST_WORDS < length (map (λ w. w.now) found.old.items ++ words_among (part.now ∷ []))) }
{
    if part.is_empty() {
        return Some(());
    }
    match found.try_push(readable(part)) {
        Ok(()) => Some(()),
        Err(_) => None,
    }
}

/// Fills an empty list with what stands between the spaces. `None` where that is more than any form has.
pub fn find_words<'a>(line: &'a [u8], found: &mut Words<'a>) -> Option<()>
    requires { found.old.items ≡ [] }
    ensures few { OnSome result (map (λ w. w.now) found.new.items ≡ words line.now) }
    ensures many { IfNone result (MOST_WORDS < length (words line.now)) }
{
    let mut rest = line;
    while let Some(end) = memchr(b' ', rest) {
        let (part, after) = rest.split_at(end);
        push_word(found, part)?;
        rest = &after[1..];
    }
    push_word(found, rest)
}
