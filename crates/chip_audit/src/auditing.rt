//! The audit of a plane's chip.
ghost use Rattle.std.specs.Prelude.{◌≡◌, true, IfOk, OnOk, Some};
ghost use Rattle.br_model.specs.declared.change.Change.{Change};
ghost use Rattle.br_model.specs.Table.Change.{address_part};
ghost use Rattle.br_model.specs.Table.Cut.{deferred_at};
ghost use Rattle.br_model.specs.Plane.Chip.{Chip};
ghost use Rattle.br_model.specs.Plane.World.{chip_at, table_of_chip};
ghost use Rattle.br_model.specs.Table.Domains.{has_chip};
ghost use Rattle.chip_audit.specs.Audits.{audit_of, entries_of, offloaded_keys, pending_keys, stale_keys};
ghost use Rattle.chip_audit.specs.Marks.{entries_after};

use crate::NoMemory;
use crate::comparison::{Audit, Comparison};
use crate::entries::{Entries, follow, gone, of_rows};
use crate::rows::{Row, rows};
use br_model::numbers::Dom;
use plane_core::Plane;
use std::alloc::Global;

/// The entries after the update with this ticket. After want of memory nothing is known of them.
fn follow_update(entries: &mut Entries, p: &Plane, ticket: u32) -> Result<(), NoMemory>
    ensures { OnOk result ((c : Change) → deferred_at p.now.world.setup.domains.edition p.now.world.history ticket ≡ Some c
        → entries.new.entries ≡ entries_after entries.old.entries (address_part c)) }
{
    match p.update(ticket) {
        Some(update) => follow(entries, &update.change),
        None => Ok(()),
    }
}

/// The bridge's entries: those of the domain's chip, which are these rows, changed by each update that it hasn't applied.
fn entries(alloc: Global, p: &Plane, d: Dom, rows: &[Row]) -> Result<Entries, NoMemory>
    requires chip { has_chip p.now.world.setup.domains d ≡ true }
    requires rows { (c : Chip) → chip_at p.now.world d ≡ Some c → rows.now ≡ (table_of_chip p.now.world c).addr }
    ensures { IfOk result (λ entries. (c : Chip) → chip_at p.now.world d ≡ Some c
        → entries.entries ≡ entries_of p.now.world.setup.domains.edition p.now.world.history c.count) }
{
    // law: what holds of every plane
    p.stands();
    let mut entries = of_rows(alloc, rows)?;
    let applied = p.applied(d);
    for ticket in applied..applied + p.pending(d) {
        follow_update(&mut entries, p, ticket)?;
    }
    Ok(entries)
}

/// Compares the domain's chip with the bridge. It reads the chip's rows and the updates that the chip hasn't applied, and no other
/// change of the history.
pub fn compare(alloc: Global, plane: &Plane, dom: Dom) -> Result<Comparison, NoMemory>
    requires { has_chip plane.now.world.setup.domains dom ≡ true }
    ensures { IfOk result (λ a. (c : Chip) → chip_at plane.now.world dom ≡ Some c → a ≡ audit_of plane.now.world c) }
{
    let rows = rows(alloc, plane.tables(dom))?;
    let entries = entries(alloc, plane, dom, &rows)?;
    let stale = gone(alloc, &entries, &rows)?;
    let waiting = plane.pending(dom);
    Ok(Comparison::of(entries, stale, waiting))
}

/// The same, as keys.
pub fn audit(alloc: Global, plane: &Plane, dom: Dom) -> Result<Audit, NoMemory>
    requires { has_chip plane.now.world.setup.domains dom ≡ true }
    ensures offloaded { IfOk result (λ a. (c : Chip) → chip_at plane.now.world dom ≡ Some c → a.offloaded ≡ offloaded_keys (audit_of plane.now.world c)) }
    ensures pending { IfOk result (λ a. (c : Chip) → chip_at plane.now.world dom ≡ Some c → a.pending ≡ pending_keys (audit_of plane.now.world c)) }
    ensures stale { IfOk result (λ a. (c : Chip) → chip_at plane.now.world dom ≡ Some c → a.stale ≡ stale_keys (audit_of plane.now.world c)) }
    ensures waiting { IfOk result (λ a. (c : Chip) → chip_at plane.now.world dom ≡ Some c → a.waiting ≡ (audit_of plane.now.world c).waiting) }
{
    let comparison = compare(alloc, plane, dom)?;
    comparison.audit(alloc)
}
