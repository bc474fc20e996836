//! What is kept beside the members of a group: the moments at which they end, or nothing.
ghost use Rattle.std.specs.Prelude.{◌≡◌, ℕ, Bool, IsTrue, List, None, Option, [], is_some, not, refl};
ghost use Rattle.std.specs.Ordering.{nat_cmp};
ghost use Rattle.br_model.specs.Data.Maps.{get};
ghost use Rattle.mdb_snoop.specs.Database.{with_end};

use br_model::numbers::Port;

/// The ends of members.
pub trait Ends: Drop {
    /// The ports that end, with their moments.
    ghost moments: { Self → List (ℕ × ℕ) };

    /// Whether a member can have this end.
    ghost keeps: { Option ℕ → Bool };

    /// A member can have none.
    ghost lasts: { IsTrue (keeps None) };

    fn none() -> Self
        ensures { moments result ≡ [] };

    fn end(&self, port: Port) -> Option<u64>
        ensures { result ≡ get nat_cmp (moments self.now) port };

    fn set_end(&mut self, port: Port, end: Option<u64>)
        requires { IsTrue (keeps end) }
        ensures { moments self.new ≡ with_end (moments self.old) port end };
}

/// Nothing: no member ends.
#[derive(Drop)]
pub struct NoEnds;

impl Ends for NoEnds {
    ghost moments = { λ e. [] };

    ghost keeps = { λ end. not (is_some end) };

    ghost lasts = { refl };

    fn none() -> NoEnds {
        NoEnds
    }

    fn end(&self, _: Port) -> Option<u64> {
        None
    }

    fn set_end(&mut self, _: Port, _: Option<u64>) {}
}
