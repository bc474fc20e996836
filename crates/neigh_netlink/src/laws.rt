//! Laws about neighbour messages. A law is a function that does nothing: its contract says it.
ghost use Rattle.std.specs.Prelude.{◌≡◌, ◌≤◌, ◌<◌, ◌^◌, ◌++◌, ◌∷◌, [], ℕ, List, Some, true, codes, length};
ghost use Rattle.std.specs.List.{fold};
ghost use Rattle.br_model.specs.declared.steps.Step.{Step};
ghost use Rattle.br_model.specs.Plane.Runs.{run};
ghost use Rattle.br_model.specs.Table.Setup.{Setup};
ghost use Rattle.br_model.specs.Table.Table.{table};
ghost use Rattle.br_model.specs.Text.Scenario.{longest_line};
ghost use Rattle.br_model.specs.Theorems.WholeLines.{is_line};
ghost use Rattle.br_model.specs.Worked.Chip.{moved_to_a_foreign_port_text};
ghost use Rattle.br_model.specs.Worked.Rows.{first_frame_text};
ghost use Rattle.neigh_netlink.specs.declared.neigh.Neigh.{Neigh};
ghost use Rattle.neigh_netlink.specs.Messages.{has_ranges, is_message, written};
ghost use Rattle.neigh_netlink.specs.Reading.{read};
ghost use Rattle.neigh_netlink.specs.Monitor.{messages, monitored};
ghost use Rattle.neigh_netlink.specs.Neighbours.{Neighbours, addresses, table_of};
ghost use Rattle.neigh_netlink.specs.Offloaded.{entries_of};
ghost use Rattle.neigh_netlink.specs.Follow.{Going, followed, line_says, reads, takes};
ghost use Rattle.neigh_netlink.specs.Worked.{absent_entry_text, bad_line, other_padding_text};
ghost use Rattle.neigh_netlink.specs.Worked.{monitor_and_follow_followed, monitor_and_follow_told};
ghost use Rattle.neigh_netlink.specs.Worked.{moved_entry_followed, moved_entry_told, offloaded_entry_followed, offloaded_entry_text};

/// Each message that is written is read back.
pub fn messages_are_read()
    ensures { (m : Neigh) → has_ranges m ≡ true → m.mac < 2 ^ 48 → is_message m ≡ true → read (written m) ≡ Some m }
{}

/// What is read is what is written for it.
pub fn read_is_written()
    ensures { (b : List ℕ) (m : Neigh) → read b ≡ Some m → (is_message m ≡ true) × (written m ≡ b) }
{}

/// The messages of a run come to the address entries of all accepted changes.
pub fn messages_are_the_entries()
    ensures { (setup : Setup) (steps : List Step) → addresses (table_of (messages setup steps)) ≡ (table (run setup steps).0.history).addr }
{}

/// And each of them is offloaded exactly where its port is in the domain of a chip, and the last deferred change of its address puts it
/// and is one that this chip has applied.
pub fn offloads_are_told()
    ensures { (setup : Setup) (steps : List Step) → table_of (messages setup steps) ≡ entries_of (run setup steps).0 }
{}

/// Two static entries come, at ports of software: a message each.
pub fn monitor_and_follow()
    ensures told { monitored first_frame_text ≡ monitor_and_follow_told }
    ensures followed { followed monitor_and_follow_told ≡ monitor_and_follow_followed }
{}

/// A chip learns an entry and has it; then its station moves to a port of software.
pub fn moved_entry()
    ensures told { monitored moved_to_a_foreign_port_text ≡ moved_entry_told }
    ensures followed { followed moved_entry_told ≡ moved_entry_followed }
    ensures offloaded { followed offloaded_entry_text ≡ offloaded_entry_followed }
{}

/// Bytes are read line by line, and a line that isn't ended is kept.
pub fn lines_are_read()
    ensures line { (n : ℕ) (t : Neighbours) (line : List ℕ) → is_line line ≡ true → length line ≤ longest_line
        → fold reads (record { following = record { lines = n; table = t; ending = Going }; line = [] }) (line ++ 10 ∷ [])
        ≡ record { following = takes (record { lines = n; table = t; ending = Going }) (line_says line); line = [] } }
    ensures rest { (n : ℕ) (t : Neighbours) (line : List ℕ) → is_line line ≡ true → length line ≤ longest_line
        → fold reads (record { following = record { lines = n; table = t; ending = Going }; line = [] }) line
        ≡ record { following = record { lines = n; table = t; ending = Going }; line = line } }
{}

/// Lines that are bad, each for its cause.
pub fn follow_refuses()
    ensures unended { followed (codes "nl 30") ≡ bad_line (codes "bad 1 unended") }
    ensures end { followed (codes " end") ≡ bad_line (codes "end") }
    ensures word { followed (codes "end now" ++ 10 ∷ []) ≡ bad_line (codes "bad 1 word") }
    ensures hex { followed (codes "#" ++ (10 ∷ codes "nl 3g" ++ 10 ∷ [])) ≡ bad_line (codes "bad 2 hex") }
    ensures message { followed other_padding_text ≡ bad_line (codes "bad 1 message") }
    ensures absent { followed absent_entry_text ≡ bad_line (codes "bad 1 absent") }
{}
