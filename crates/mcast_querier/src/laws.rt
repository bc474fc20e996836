//! Laws about queriers. A law is a function that does nothing: its contract says it.
ghost use Rattle.std.specs.Prelude.{◌≡◌, ◌<◌, ◌≤◌, ◌+◌, ◌^◌, ◌++◌, ◌∷◌, [], ℕ, Bool, List, Some, true, false};
ghost use Rattle.std.specs.List.{All};
ghost use Rattle.br_model.specs.declared.steps.Step.{Step};
ghost use Rattle.br_model.specs.Table.Setup.{Setup};
ghost use Rattle.br_model.specs.declared.frame.McastMsg.TheVariants.{Query};
ghost use Rattle.br_model.specs.Wire.Checksum.{is_summed};
ghost use Rattle.mcast_querier.specs.Election.{other_querier_present_interval, queries_at};
ghost use Rattle.mcast_querier.specs.Hearing.{asker_in, message_in};
ghost use Rattle.mcast_querier.specs.Leaving.{IsDue};
ghost use Rattle.mcast_querier.specs.Querier.{Act, Ascend, Comes, Hears, QuerierState, after, election, first_querier};
ghost use Rattle.mcast_querier.specs.Queries.{checksum, header_four, is_host_four, is_link_local_six, query_four, query_six};
ghost use Rattle.mcast_querier.specs.Runs.{acts, queried, sent};
ghost use Rattle.mcast_querier.specs.Worked.{nine, ten, nine_six, due_moments_text, due_moments_told, yields_text, yields_told};

/// A query of a version leaves only where no lower address of that version was heard in the 255 seconds before it.
pub fn yields_to_lower_addresses()
    ensures { (q : QuerierState) (six : Bool) (before later : List Act) (address t ms : ℕ) → address < (election six q).address
        → Ascend t (later ++ Comes ms ∷ []) → queries_at (election six (after q (before ++ Hears (six, address) t ∷ later)).0) ms ≡ true
        → t + other_querier_present_interval ≤ ms }
{}

/// What happens to a querier in a run comes at moments that don't go back.
pub fn moments_ascend()
    ensures { (setup : Setup) (steps : List Step) → Ascend 0 (acts setup steps) }
{}

/// Each query that leaves in a run is due then, and no lower address of its version was heard in the 255 seconds before.
pub fn queries_are_due()
    ensures { (a4 a6 : ℕ) (setup : Setup) (steps : List Step) → All (IsDue (first_querier setup.own a4 a6) (acts setup steps)) (sent a4 a6 setup steps) }
{}

/// Each query that is written is read as a general query of its version, from its source.
pub fn queries_are_counted()
    ensures four { (own source : ℕ) → is_host_four source ≡ true → source < 2 ^ 32
        → (message_in (query_four own source) ≡ Some (Query false true)) × (asker_in (query_four own source) ≡ Some (false, source)) }
    ensures six { (own source : ℕ) → is_link_local_six source ≡ true → source < 2 ^ 128
        → (message_in (query_six own source) ≡ Some (Query true true)) × (asker_in (query_six own source) ≡ Some (true, source)) }
{}

/// The header of version 4 holds its checksum; the message of version 6 does, since it is read.
pub fn headers_are_summed()
    ensures { (source : ℕ) → is_summed (header_four (checksum (header_four 0 source)) source) ≡ true }
{}

/// Nobody else asks: both versions ask at once, a startup interval later, and a query interval later.
pub fn querier_due_moments()
    ensures { queried nine nine_six due_moments_text ≡ due_moments_told }
{}

/// A lower address asks: version 4 is silent until it hasn't been heard for 255 seconds.
pub fn querier_yields()
    ensures { queried ten nine_six yields_text ≡ yields_told }
{}
