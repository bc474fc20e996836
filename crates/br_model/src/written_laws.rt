//! What is written is read back. A law is a function that does nothing: its contract says it.
ghost use Rattle.std.specs.Prelude.{◌≡◌, ◌==◌, ◌||◌, ℕ, ◌<◌, ◌^◌, decimal, List, true, false, nat_lt};
ghost use Rattle.std.specs.List.{list_all};
ghost use Rattle.br_model.specs.declared.domains.Edition.{Edition};
ghost use Rattle.br_model.specs.declared.group.Ip.{Ip};
ghost use Rattle.br_model.specs.declared.scenario.Said.TheVariants.{Does};
ghost use Rattle.br_model.specs.declared.steps.Step.{Step};
ghost use Rattle.br_model.specs.Text.CommandForms.{step};
ghost use Rattle.br_model.specs.Wire.Frames.{frame};
ghost use Rattle.br_model.specs.Text.LineForms.{comes_by_line, line_says};
ghost use Rattle.br_model.specs.Table.Domains.{chip_domains};
ghost use Rattle.br_model.specs.Text.Roster.{Entry, Roster, chips_of, domains_of};
ghost use Rattle.br_model.specs.Theorems.WrittenSteps.{given, is_whole};
ghost use Rattle.br_model.specs.Data.Numbers.{is_multicast};
ghost use Rattle.br_model.specs.Text.Operands.{mac, group, is_ip};
ghost use Rattle.br_model.specs.Text.ScenarioText.{has_line, step_words};
ghost use Rattle.br_model.specs.Text.Spelling.{mac_text, ip_text, shown};
ghost use Rattle.br_model.specs.Text.Declarations.{are_declared};
ghost use Rattle.br_model.specs.Data.Digits.{decimal_from, hex_of, bytes_from_hex};

/// A number is read back from its digits.
pub fn decimal_is_read()
    ensures { (n : ℕ) → n < 2 ^ 64 → decimal_from (decimal n) ≡ Some n }
{}

/// Bytes are read back from their digits.
pub fn hex_is_read()
    ensures { (bytes : List ℕ) → list_all (λ byte. nat_lt byte 256) bytes ≡ true → bytes_from_hex (hex_of bytes) ≡ Some bytes }
{}

/// An address of one station is read back.
pub fn address_is_read()
    ensures { (m : ℕ) → m < 2 ^ 48 → (is_multicast m || m == 0) ≡ false → mac (mac_text m) ≡ Ok m }
{}

/// An IP address is read back.
pub fn group_is_read()
    ensures { (g : Ip) → is_ip g ≡ true → group (ip_text g) ≡ Ok g }
{}

/// The line of a step is read back to the step. Of a frame that is too long, or has no byte, it keeps what tells so.
pub fn step_is_read()
    ensures any { (r : Roster) (s : Step) → step r.place ≡ true → comes_by_line r.check (chips_of r.ports) s ≡ true → are_declared r.ports ≡ true
        → has_line r.ports s ≡ true → line_says r (step_words r.ports s) ≡ Ok (Does (given s)) }
    ensures whole { (r : Roster) (s : Step) → step r.place ≡ true → comes_by_line r.check (chips_of r.ports) s ≡ true → are_declared r.ports ≡ true
        → has_line r.ports s ≡ true → is_whole s ≡ true → line_says r (step_words r.ports s) ≡ Ok (Does s) }
{}

/// What is kept of a frame is refused as the frame is.
pub fn frame_is_shown()
    ensures { (bytes : List ℕ) → frame (shown bytes) ≡ frame bytes }
{}

/// The chips that a line may name are those that exist.
pub fn chips_are_declared()
    ensures { (edition : Edition) (ports : List Entry) → are_declared ports ≡ true → chip_domains (domains_of edition ports) ≡ chips_of ports }
{}
