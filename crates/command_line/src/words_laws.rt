//! Worked command lines. A law is a function that does nothing: its contract says it.
ghost use Rattle.std.specs.Prelude.{◌≡◌, [], codes, None, Some};
ghost use Rattle.br_model.specs.Text.Words.{words};
ghost use Rattle.br_model.specs.declared.listing.Listing.TheVariants.{Fdb, Vlan, Mdb};
ghost use Rattle.command_line.specs.declared.asked.Asked.TheVariants.{Replay, Check, Show, Monitor, Audit, Querier, Follow, Live, Gen, Demo};
ghost use Rattle.command_line.specs.Words.{asked};

/// Each command, with the largest numbers.
pub fn commands_are_read()
    ensures replay { asked (words (codes "replay")) ≡ Some Replay }
    ensures check { asked (words (codes "check")) ≡ Some Check }
    ensures fdb { asked (words (codes "show fdb")) ≡ Some (Show Fdb) }
    ensures vlan { asked (words (codes "show vlan")) ≡ Some (Show Vlan) }
    ensures mdb { asked (words (codes "show mdb")) ≡ Some (Show Mdb) }
    ensures monitor { asked (words (codes "monitor")) ≡ Some Monitor }
    ensures audit { asked (words (codes "audit")) ≡ Some Audit }
    ensures follow { asked (words (codes "follow")) ≡ Some Follow }
    ensures querier { asked (words (codes "querier 10.0.0.9 fe80:0000:0000:0000:0000:0000:0000:0009"))
        ≡ Some (Querier 0x0A000009 0xFE800000000000000000000000000009) }
    ensures greatest { asked (words (codes "querier 255.255.255.255 FEBF:FFFF:FFFF:FFFF:FFFF:FFFF:FFFF:FFFF"))
        ≡ Some (Querier 0xFFFFFFFF 0xFEBFFFFFFFFFFFFFFFFFFFFFFFFFFFFF) }
    ensures workers { asked (words (codes "live --workers 16")) ≡ Some (Live 16) }
    ensures joined { asked (words (codes "live --workers=1")) ≡ Some (Live 1) }
    ensures least { asked (words (codes "gen 0 0")) ≡ Some (Gen 0 0) }
    ensures most { asked (words (codes "gen 18446744073709551615 100000")) ≡ Some (Gen 18446744073709551615 100000) }
    ensures demo { asked (words (codes "demo 7 20")) ≡ Some (Demo 7 20) }
{}

/// An operand too few, one too many, and operands that aren't spelled as they should be.
pub fn operands_are_tested()
    ensures few { asked (words (codes "gen 7")) ≡ None }
    ensures many { asked (words (codes "replay x")) ≡ None }
    ensures table { asked (words (codes "show ports")) ≡ None }
    ensures zero { asked (words (codes "gen 07 1")) ≡ None }
    ensures number { asked (words (codes "gen 18446744073709551616 1")) ≡ None }
    ensures count { asked (words (codes "gen 0 100001")) ≡ None }
    ensures none { asked (words (codes "monitor x")) ≡ None }
    ensures no_workers { asked (words (codes "live")) ≡ None }
    ensures zero_workers { asked (words (codes "live --workers 0")) ≡ None }
    ensures most_workers { asked (words (codes "live --workers 17")) ≡ None }
    ensures workers { asked (words (codes "live --workers 04")) ≡ None }
    ensures bare { asked (words (codes "live 4")) ≡ None }
    ensures sign { asked (words (codes "demo 1 -1")) ≡ None }
{}

/// No host's addresses: zero, a group's, one that isn't link-local, and one that is shortened.
pub fn addresses_are_tested()
    ensures zero { asked (words (codes "querier 0.0.0.0 fe80:0000:0000:0000:0000:0000:0000:0009")) ≡ None }
    ensures group { asked (words (codes "querier 224.0.0.1 fe80:0000:0000:0000:0000:0000:0000:0009")) ≡ None }
    ensures low { asked (words (codes "querier 10.0.0.9 fe7f:0000:0000:0000:0000:0000:0000:0009")) ≡ None }
    ensures high { asked (words (codes "querier 10.0.0.9 fec0:0000:0000:0000:0000:0000:0000:0009")) ≡ None }
    ensures short { asked (words (codes "querier 10.0.0.9 fe80::9")) ≡ None }
    ensures few { asked (words (codes "querier 10.0.0.9")) ≡ None }
{}

/// No word, an unknown one, words for help and for the version, a command's first letters and two commands.
pub fn other_words_are_faults()
    ensures none { asked [] ≡ None }
    ensures unknown { asked (words (codes "list")) ≡ None }
    ensures option { asked (words (codes "--help")) ≡ None }
    ensures help { asked (words (codes "help")) ≡ None }
    ensures help_of { asked (words (codes "help show")) ≡ None }
    ensures below { asked (words (codes "gen -h")) ≡ None }
    ensures version { asked (words (codes "-V")) ≡ None }
    ensures shortened { asked (words (codes "rep")) ≡ None }
    ensures two { asked (words (codes "replay replay")) ≡ None }
{}

/// What follows `--` is no command, and is an operand.
pub fn dashes_end_options()
    ensures before { asked (words (codes "-- replay")) ≡ None }
    ensures behind { asked (words (codes "show -- fdb")) ≡ Some (Show Fdb) }
{}
