//! Laws about whole inputs. A law is a function that does nothing: its contract says it.
ghost use Rattle.std.specs.Prelude.{◌≡◌, ◌+◌, ◌++◌, ◌∷◌, [], ℕ, List, true, codes, length};
ghost use Rattle.std.specs.List.{flat_map, list_all};
ghost use Rattle.br_model.specs.Program.Outcomes.{EndsWithin};
ghost use Rattle.br_model.specs.Program.Runs.{run_of, setup_of};
ghost use Rattle.br_model.specs.Table.Limits.{most_bytes};
ghost use Rattle.br_model.specs.Text.Operands.{is_byte};
ghost use Rattle.br_model.specs.Text.Scenario.{Ended, scenario};
ghost use Rattle.neigh_netlink.specs.Follow as following;
ghost use Rattle.neigh_netlink.specs.Follow.{followed, follows, row_line};
ghost use Rattle.neigh_netlink.specs.Monitor.{messages, monitored};
ghost use Rattle.neigh_netlink.specs.Neighbours.{rows};
ghost use Rattle.neigh_netlink.specs.Offloaded.{entries_of};
ghost use Rattle.neigh_netlink.specs.MessageLines.{message_lines};

/// What `monitor` writes of a scenario that ends well is followed to its end, and no line of it is bad. It gives the address entries at
/// the end of the run, each with whether a chip has it; these are what `follow` writes. And it is within what `follow` reads: so where no
/// fault comes, `follow` succeeds with it, or memory runs out.
pub fn monitored_is_followed()
    ensures table { (bytes : List ℕ) → list_all is_byte bytes ≡ true → (scenario bytes).ending ≡ Ended → follows (monitored bytes)
        ≡ record {
          lines = length (messages (setup_of (scenario bytes).roster) (scenario bytes).steps) + 1;
          table = entries_of (run_of (scenario bytes)).0;
          ending = following.Ended;
        } }
    ensures text { (bytes : List ℕ) → list_all is_byte bytes ≡ true → (scenario bytes).ending ≡ Ended
        → followed (monitored bytes) ≡ flat_map row_line (rows (entries_of (run_of (scenario bytes)).0)) ++ (codes "end" ++ 10 ∷ []) }
    ensures within { (bytes : List ℕ) → list_all is_byte bytes ≡ true → (scenario bytes).ending ≡ Ended → EndsWithin message_lines most_bytes (monitored bytes) }
{}
