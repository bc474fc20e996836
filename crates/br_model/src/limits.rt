//! What a bridge and a run hold at most.
//!
//! Each number stands here once in the code, and once in the definitions.
ghost use Rattle.std.specs.Prelude.{◌≡◌};
ghost use Rattle.br_model.specs.Table.GroupPairs.{max_pairs};
ghost use Rattle.br_model.specs.Program.Generator.{most_frames};
ghost use Rattle.br_model.specs.Table.Limits.{most_bytes, most_live_bytes, most_changes, most_waiting, most_reports, most_addresses};
ghost use Rattle.br_model.specs.Text.Scenario.{longest_line};

/// Bytes that are read of an input.
pub const MOST_BYTES: u32 = 1 << 28;

/// Bytes that are read of the scenario of a run by workers.
pub const MOST_LIVE_BYTES: u32 = 1 << 22;

/// Bytes of a line, without its line feed.
pub const LONGEST_LINE: usize = 20_000;

/// Frames that are generated.
pub const MOST_FRAMES: u32 = 100_000;

/// Changes of a run.
pub const MOST_CHANGES: usize = 1_048_576;

/// Frames that wait or are held.
pub const MOST_WAITING: usize = 4096;

/// Reports of a chip that wait.
pub const MOST_REPORTS: usize = 256;

/// Address entries.
pub const MOST_ADDRESSES: usize = 16_384;

/// Pairs of a VLAN and a group that have members.
pub const MOST_PAIRS: usize = 1024;

/// A law, whose body does nothing: these are the limits of the definitions.
pub fn limits_are_defined()
    ensures bytes { MOST_BYTES ≡ most_bytes }
    ensures live_bytes { MOST_LIVE_BYTES ≡ most_live_bytes }
    ensures line { LONGEST_LINE ≡ longest_line }
    ensures frames { MOST_FRAMES ≡ most_frames }
    ensures changes { MOST_CHANGES ≡ most_changes }
    ensures waiting { MOST_WAITING ≡ most_waiting }
    ensures reports { MOST_REPORTS ≡ most_reports }
    ensures addresses { MOST_ADDRESSES ≡ most_addresses }
    ensures pairs { MOST_PAIRS ≡ max_pairs }
{}
