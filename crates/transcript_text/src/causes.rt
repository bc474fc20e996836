//! The cause of a bad line.
ghost use Rattle.std.specs.Prelude.{◌≡◌, ◌+◌, ◌≤◌, ◌++◌, length, OnOk, OnErr};
ghost use Rattle.std.specs.String.{string_bytes};
ghost use Rattle.br_model.specs.Text.Transcript.{why_text, bad_text};
ghost use Rattle.transcript_text.specs.Extends.{Extends};

use crate::line_end::LineEnd;
use br_model::NoMemory;
use br_model::scenario::LineWhy;

/// The cause in front of what stands there.
fn put_why(why: LineWhy, line: &mut LineEnd)
    requires { 18 + length line.old ≤ 64 }
    ensures text { line.new ≡ why_text why ++ line.old }
    ensures len { length line.new ≤ 18 + length line.old }
{
    match why {
        LineWhy::Long => line.word("long"),
        LineWhy::Unended => line.word("unended"),
        LineWhy::Word => line.word("word"),
        LineWhy::Place => line.word("place"),
        LineWhy::Number => line.word("number"),
        LineWhy::Port => line.word("port"),
        LineWhy::Address => line.word("address"),
        LineWhy::Hex => line.word("hex"),
        LineWhy::Capture(offset) => {
            line.number(offset);
            line.word("capture ");
        }
        LineWhy::NoMemory => line.word("memory"),
    }
}

/// Writes the last line behind the text, where this line of the scenario, counted from 1, is bad: `bad LINE WHY`.
/// After want of memory a part of it may stand there.
pub fn append_bad(line: u32, why: LineWhy, to: &mut String) -> Result<(), NoMemory>
    ensures ok { OnOk result (string_bytes to.new ≡ string_bytes to.old ++ bad_text line why) }
    ensures err { OnErr result (Extends (string_bytes to.old) (string_bytes to.new)) }
{
    let mut end = LineEnd::new();
    end.word("\n");
    put_why(why, &mut end);
    end.word(" ");
    end.number(line);
    end.word("bad ");
    end.append_to(to)
}
