//! The flags of a port, by their names.
ghost use Rattle.std.specs.Prelude.{◌≡◌, ◌<◌, IfSome};
ghost use Rattle.br_model.specs.Text.FlagWords.{flags, flag_named};

use bitflags::{Flag, Flags as Names};
use br_model::change::Flags;

/// Flags of a port, a bit each.
#[derive(Clone, Copy)]
struct PortFlags(u8);

impl PortFlags {
    const FLAGS: &'static [Flag<PortFlags>] = &[
        Flag {
            name: "learning",
            value: PortFlags(1),
        },
        Flag {
            name: "flood",
            value: PortFlags(2),
        },
        Flag {
            name: "mcast_flood",
            value: PortFlags(4),
        },
        Flag {
            name: "bcast_flood",
            value: PortFlags(8),
        },
        Flag {
            name: "isolated",
            value: PortFlags(16),
        },
        Flag {
            name: "fastleave",
            value: PortFlags(32),
        },
    ];
}

impl Names for PortFlags {
    ghost use Rattle.std.specs.Prelude.{⊤};
    ghost use Rattle.br_model.specs.Text.FlagWords.{flags};

    type Bits = u8;

    ghost exact = { ⊤ };

    ghost table = { flags };

    ghost set_of = { λ f. f.0 };

    fn flags<'a>() -> &'a [Flag<PortFlags>] {
        PortFlags::FLAGS
    }

    fn bits(&self) -> u8 {
        self.0
    }

    fn from_bits_retain(bits: u8) -> PortFlags {
        PortFlags(bits)
    }
}

/// The bit of the flag with this name.
fn bit_named(word: &str) -> Option<u8>
    ensures value { result ≡ flag_named flags word.now }
    ensures small { IfSome result (λ bit. bit < 64) }
{
    match PortFlags::from_name(word) {
        Some(flag) => Some(flag.0),
        None => None,
    }
}

/// The flag with this name.
pub fn flag(word: &str) -> Option<Flags>
    ensures { result ≡ flag_named flags word.now }
{
    Flags::new(bit_named(word)?)
}
