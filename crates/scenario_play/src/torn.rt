//! A text of whole lines.
ghost use Rattle.std.specs.Prelude.{◌≡◌, take, OnOk, OnErr, string_bytes};
ghost use Rattle.std.specs.String.Boundary.{IsSplitPoint};

use br_model::NoMemory;

/// Where what was appended found no room, the text is cut back to its first `whole` bytes, so that no torn line stands there.
pub fn cut_if_torn(
    appended: Result<(), NoMemory>,
    whole: usize,
    text: &mut String,
) -> Result<(), NoMemory>
    requires seam { OnErr appended (IsSplitPoint (string_bytes text.old) whole) }
    ensures same { result ≡ appended }
    ensures ok { OnOk result (string_bytes text.new ≡ string_bytes text.old) }
    ensures err { OnErr result (string_bytes text.new ≡ take whole (string_bytes text.old)) }
{
    if appended.is_err() {
        text.truncate(whole);
    }
    appended
}
