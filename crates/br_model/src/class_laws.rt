//! Laws about what a chip does with a frame. A law is a function that does nothing: its contract says it.
ghost use Rattle.std.specs.Prelude.{◌≡◌, ℕ, true, map};
ghost use Rattle.br_model.specs.declared.frame.Class.{Class};
ghost use Rattle.br_model.specs.declared.frame.Head.{Head};
ghost use Rattle.br_model.specs.declared.frame.McastMsg.{McastMsg};
ghost use Rattle.br_model.specs.Forward.Class.{class};
ghost use Rattle.br_model.specs.Table.Domains.{Domains};
ghost use Rattle.br_model.specs.Table.Table.{Table};
ghost use Rattle.br_model.specs.Theorems.Wanted.{IsWanted, ArePorts, NeedsSoftware, comes_to_software};
ghost use Rattle.br_model.specs.Worked.Laws.{chip_ports, classes_known, head_to, known_table};

/// The class of a frame is what it is for, and no other class is.
pub fn class_is_wanted()
    ensures is { (domains : Domains) (t : Table) (port : ℕ) (head : Head) (msg : McastMsg) → IsWanted domains t port head msg (class domains t port head msg) }
    ensures only { (domains : Domains) (t : Table) (port : ℕ) (head : Head) (msg : McastMsg) (c : Class)
        → IsWanted domains t port head msg c → c ≡ class domains t port head msg }
{}

/// A frame comes to software exactly where software is needed for it: where the spanning tree or snooping reads it, the host may take
/// it as reserved, or one bridge sends it by a port of another domain.
pub fn comes_where_needed()
    ensures needed { (domains : Domains) (t : Table) (port : ℕ) (head : Head) (msg : McastMsg) → ArePorts t
        → comes_to_software (class domains t port head msg) ≡ true → NeedsSoftware domains t port head msg }
    ensures comes { (domains : Domains) (t : Table) (port : ℕ) (head : Head) (msg : McastMsg) → NeedsSoftware domains t port head msg
        → comes_to_software (class domains t port head msg) ≡ true }
{}

/// Frames of each class, by their destinations and messages, in a table whose ports have numbers of ports.
pub fn classes_by_destination()
    ensures classes { map (λ x. class chip_ports.domains known_table 1 (head_to x.0) x.1) classes_known ≡ map (λ x. x.2) classes_known }
    ensures ports { ArePorts known_table }
{}
