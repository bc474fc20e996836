//! The marks of frames that go on to the processor.
ghost use Rattle.std.specs.Prelude.{◌≡◌, ℕ, Some};
ghost use Rattle.br_model.specs.Forward.Shares.{mark_of};
ghost use Rattle.br_model.specs.Table.Domains.{Domains, domain_of};
ghost use Rattle.hwdom_marks.specs.Marks.{domain_marked};

use br_model::frame::Class;
use br_model::numbers::Dom;
use hwdom_marks::Mark;

/// The mark of a frame that the chip of the domain has decided so: one that it copied was sent there already.
pub fn mark_of(class: Class, dom: Dom) -> Option<Mark>
    ensures { (domains : Domains) (port : ℕ) → domain_of domains port ≡ Some dom → domain_marked result ≡ mark_of class domains port }
{
    match class {
        Class::Copy => Some(Mark { dom }),
        Class::Drop | Class::Trap | Class::Forward => None,
    }
}
