//! What is left to do at the end of a run.
ghost use Rattle.std.specs.Prelude.{◌≡◌, IfOk};
ghost use Rattle.br_model.specs.Table.Domains.{chip_domains};
ghost use Rattle.live_book.specs.Ends.{IsLeft, reporting};
ghost use Rattle.plane_record.specs.Pasts.{world_of};

use crate::NoMemory;
use br_model::numbers::Dom;
use lists::Items;
use live_book::Remains;
use plane_lock::Ran;
use std::alloc::Global;

/// The chips that have reports left.
fn reporting(alloc: Global, ran: &Ran, chips: &[Dom]) -> Result<Items<Dom>, NoMemory>
    requires { chips.now ≡ chip_domains ran.now.setup.domains }
    ensures { IfOk result (λ doms. doms ≡ reporting (world_of ran.now)) }
{
    let mut doms = Items::new(alloc);
    for dom in chips {
        if ran.plane().first_report(*dom).is_some() {
            doms.push(*dom)?;
        }
    }
    Ok(doms)
}

/// What is left to do.
pub(crate) fn left_of(alloc: Global, ran: &Ran, chips: &[Dom]) -> Result<Remains, NoMemory>
    requires { chips.now ≡ chip_domains ran.now.setup.domains }
    ensures { IfOk result (λ left. IsLeft left (world_of ran.now)) }
{
    let plane = ran.plane();
    Ok(Remains {
        waiting: plane.waiting(),
        held: plane.held(),
        pending: plane.pending_of_all(),
        reporting: reporting(alloc, ran, chips)?,
    })
}
