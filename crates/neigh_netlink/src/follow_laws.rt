//! Laws about lines of messages. A law is a function that does nothing: its contract says it.
ghost use Rattle.std.specs.Prelude.{◌≡◌, ◌<◌, ◌+◌, [], List, true, length};
ghost use Rattle.std.specs.List.{list_all};
ghost use Rattle.br_model.specs.declared.steps.Step.{Step};
ghost use Rattle.br_model.specs.Plane.Runs.{run};
ghost use Rattle.br_model.specs.Table.Limits.{most_bytes};
ghost use Rattle.br_model.specs.Table.Setup.{Setup};
ghost use Rattle.br_model.specs.Text.Declarations.{are_declared};
ghost use Rattle.br_model.specs.Text.Roster.{Entry};
ghost use Rattle.br_model.specs.Text.ScenarioText.{has_line};
ghost use Rattle.neigh_netlink.specs.declared.neigh.Neigh.{Neigh};
ghost use Rattle.neigh_netlink.specs.Follow.{Ended, follows};
ghost use Rattle.neigh_netlink.specs.Monitor.{messages};
ghost use Rattle.neigh_netlink.specs.Neighbours.{table_of};
ghost use Rattle.neigh_netlink.specs.Offloaded.{entries_of};
ghost use Rattle.neigh_netlink.specs.FollowedMessages.{are_taken, is_whole, text_of};

/// Lines of messages, each of which is taken, and then the line `end`, give the table of these messages.
pub fn messages_are_followed()
    ensures { (ms : List Neigh) → list_all is_whole ms ≡ true → are_taken [] ms ≡ true
        → follows (text_of ms) ≡ record { lines = length ms + 1; table = table_of ms; ending = Ended } }
{}

/// The messages of any run are taken, one after another. So where each of them can be written, their lines and then the line `end` are
/// followed to the end, and give the run's address entries, each with whether a chip has it.
pub fn runs_are_taken()
    ensures taken { (setup : Setup) (steps : List Step) → are_taken [] (messages setup steps) ≡ true }
    ensures followed { (setup : Setup) (steps : List Step) → list_all is_whole (messages setup steps) ≡ true
        → follows (text_of (messages setup steps))
        ≡ record { lines = length (messages setup steps) + 1; table = entries_of (run setup steps).0; ending = Ended } }
{}

/// Where each step of a run is one that a line can give, each message can be written, and is read back; so the lines of all are followed
/// to the end.
pub fn runs_are_followed()
    ensures whole { (ports : List Entry) (setup : Setup) (steps : List Step) → are_declared ports ≡ true → list_all (has_line ports) steps ≡ true
        → list_all is_whole (messages setup steps) ≡ true }
    ensures followed { (ports : List Entry) (setup : Setup) (steps : List Step) → are_declared ports ≡ true → list_all (has_line ports) steps ≡ true
        → follows (text_of (messages setup steps))
        ≡ record { lines = length (messages setup steps) + 1; table = entries_of (run setup steps).0; ending = Ended } }
{}

/// The lines of the messages of any run, with the line `end`, are fewer bytes than `follow` reads.
pub fn run_lines_fit()
    ensures { (setup : Setup) (steps : List Step) → length (text_of (messages setup steps)) < most_bytes }
{}
