//! Worked answers of `show`, `gen` and `demo`, and that what is generated is read. A law is a function that does nothing: its
//! contract says it.
ghost use Rattle.std.specs.Prelude.{◌≡◌, ℕ, ◌+◌, ◌≤◌, ◌∷◌, ◌++◌, length, take, []};
ghost use Rattle.br_model.specs.declared.listing.Listing.TheVariants.{Fdb, Vlan, Mdb};
ghost use Rattle.br_model.specs.declared.transcript.Line.{Line};
ghost use Rattle.br_model.specs.Program.Generator.{made, made_scenario, most_frames};
ghost use Rattle.br_model.specs.Program.Listings.{listed};
ghost use Rattle.br_model.specs.Text.Scenario.{scenario};
ghost use Rattle.br_model.specs.Program.Summary.{kind_of, summary, summary_text};
ghost use Rattle.br_model.specs.Text.Transcript.{line_text};
ghost use Rattle.br_model.specs.Worked.Commands.{first_frame_fdb, first_frame_vlan, no_rows, orders_text, orders_fdb, orders_vlan, orders_mdb, crossed_text, crossed_fdb, crossed_mdb, broken_text, broken, unended, generated, three_generated, lines_of_frames, what_is_behind, all_kinds, before_all, all_kinds_summed, no_frame_summed, one_frame_summed};
ghost use Rattle.br_model.specs.Worked.Rows.{first_frame_text};

/// The tables of a run, and what stands in the place of one where the scenario is bad.
pub fn tables_are_listed()
    ensures fdb { listed Fdb first_frame_text ≡ first_frame_fdb }
    ensures vlan { listed Vlan first_frame_text ≡ first_frame_vlan }
    ensures mdb { listed Mdb first_frame_text ≡ no_rows }
    ensures unended { listed Fdb [] ≡ unended }
{}

/// Listings ascend: the forwarding database by VLAN and address, memberships of VLANs by port and VLAN, those of groups by VLAN,
/// group and port. What isn't published is listed too.
pub fn listings_ascend()
    ensures fdb { listed Fdb orders_text ≡ orders_fdb }
    ensures vlan { listed Vlan orders_text ≡ orders_vlan }
    ensures mdb { listed Mdb orders_text ≡ orders_mdb }
{}

/// Entries stand by their addresses and groups by their numbers, whatever their ports. A learned entry is listed. Where the scenario
/// is bad, its cause stands alone.
pub fn listings_cross()
    ensures fdb { listed Fdb crossed_text ≡ crossed_fdb }
    ensures mdb { listed Mdb crossed_text ≡ crossed_mdb }
    ensures bad { listed Vlan broken_text ≡ broken }
{}

/// The first scenario with one frame.
pub fn one_frame_is_made()
    ensures { made 0 1 ≡ generated }
{}

/// A frame to all, and a state that goes on from frame to frame.
pub fn three_frames_are_made()
    ensures { made 2 3 ≡ three_generated }
{}

/// What is behind a frame, and in which order.
pub fn frames_have_steps_behind()
    ensures { lines_of_frames (5 ∷ 7 ∷ 64 ∷ 6720 ∷ []) ≡ what_is_behind }
{}

/// A line's kind is its first word.
pub fn kind_is_first_word()
    ensures { (line : Line) → take (length (kind_of line) + 1) (line_text line) ≡ kind_of line ++ 32 ∷ [] }
{}

/// Each kind of line is told from the others.
pub fn kinds_are_counted()
    ensures { summary_text 9 (before_all, all_kinds) ≡ all_kinds_summed }
{}

/// Runs with no frame and with one, in a line each.
pub fn runs_are_summed()
    ensures none { summary 0 0 ≡ no_frame_summed }
    ensures one { summary 0 1 ≡ one_frame_summed }
{}

/// A scenario is read as the steps of which it was made.
pub fn generated_is_read()
    ensures { (x count : ℕ) → count ≤ most_frames → scenario (made x count) ≡ made_scenario x count }
{}
