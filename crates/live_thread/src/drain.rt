//! What is left to do at the end of a run is done.
ghost use Rattle.std.specs.Prelude.{◌≡◌, ◌≢◌, ℕ, [], true, false, OnOk, Some};
ghost use Rattle.br_model.specs.Table.Domains.{has_chip};
ghost use Rattle.plane_record.specs.Pasts.{world_of};
ghost use Rattle.live_thread.specs.Draining.{Drained, Drains, HasTold, HasTurned, Keeps};
ghost use Rattle.live_thread.specs.Worlds.{IsIdle};

use crate::NoMemory;
use br_model::domains::Domains;
use br_model::numbers::Dom;
use learn_report::Report;
use plane_record::Ran;
use std::alloc::Global;
use std::sync::Wait;
use table_publish::Seat;

/// Serves the frames that wait.
fn serve_all(alloc: Global, ran: &mut Ran, seat: &mut Seat) -> Result<(), NoMemory>
    requires seat { seat.old.board ≡ ran.old.board }
    requires held { (world_of ran.old).held ≡ [] }
    ensures ok { OnOk result (Drains ran.old ran.new) }
    ensures idle { OnOk result (IsIdle (world_of ran.new)) }
    ensures board { seat.new.board ≡ seat.old.board }
{
    while ran.plane().waiting() > 0 {
        ran.serve(alloc, seat)?;
    }
    Ok(())
}

/// Whether the oldest report is this one.
fn is_same(oldest: &Option<Report>, report: &Report) -> bool
    ensures same { result ≡ true → oldest.now ≡ Some report.now }
    ensures another { result ≡ false → oldest.now ≢ Some report.now }
{
    match oldest {
        Some(oldest) => oldest.0 == report.0 && oldest.1 == report.1 && oldest.2 == report.2,
        None => false,
    }
}

/// Takes the reports of the domain's chip, until it has none or its report is refused for a full history. A report that is refused
/// stays the oldest one, and no report is there twice.
fn report_all(alloc: Global, ran: &mut Ran, dom: Dom) -> Result<(), NoMemory>
    requires chip { has_chip ran.old.setup.domains dom ≡ true }
    ensures ok { OnOk result (Drains ran.old ran.new) }
    ensures keeps { OnOk result (Keeps ran.old ran.new) }
    ensures told { OnOk result (HasTold ran.new dom) }
    ensures others { OnOk result ((d : ℕ) → d ≢ dom → HasTold ran.old d → HasTold ran.new d) }
{
    while let Some(report) = ran.plane().first_report(dom) {
        ran.report(alloc, dom)?;
        let next = ran.plane().first_report(dom);
        if is_same(&next, &report) {
            return Ok(());
        }
    }
    Ok(())
}

/// Takes the turns of the domain's chip.
fn turn_all(alloc: Global, ran: &mut Ran, dom: Dom) -> Result<(), NoMemory>
    requires chip { has_chip ran.old.setup.domains dom ≡ true }
    ensures ok { OnOk result (Drains ran.old ran.new) }
    ensures keeps { OnOk result (Keeps ran.old ran.new) }
    ensures told { OnOk result ((d : ℕ) → HasTold ran.old d → HasTold ran.new d) }
    ensures turned { OnOk result (HasTurned ran.new dom) }
    ensures others { OnOk result ((d : ℕ) → d ≢ dom → HasTurned ran.old d → HasTurned ran.new d) }
{
    while ran.plane().pending(dom) > 0 {
        ran.turn_next(alloc, dom)?;
    }
    Ok(())
}

/// Takes the reports of all chips.
fn report_chips(alloc: Global, ran: &mut Ran, domains: &Domains) -> Result<(), NoMemory>
    requires domains { ran.old.setup.domains ≡ domains.now }
    ensures ok { OnOk result (Drains ran.old ran.new) }
    ensures keeps { OnOk result (Keeps ran.old ran.new) }
    ensures told { OnOk result ((d : ℕ) → HasTold ran.new d) }
{
    for number in 0..Dom::LAST + 1 {
        let Some(dom) = Dom::new(number) else {
            unreachable!();
        };
        if domains.has_chip(dom) {
            report_all(alloc, ran, dom)?;
        }
    }
    Ok(())
}

/// Takes the turns of all chips.
fn turn_chips(alloc: Global, ran: &mut Ran, domains: &Domains) -> Result<(), NoMemory>
    requires domains { ran.old.setup.domains ≡ domains.now }
    ensures ok { OnOk result (Drains ran.old ran.new) }
    ensures keeps { OnOk result (Keeps ran.old ran.new) }
    ensures told { OnOk result ((d : ℕ) → HasTold ran.old d → HasTold ran.new d) }
    ensures turned { OnOk result ((d : ℕ) → HasTurned ran.new d) }
{
    for number in 0..Dom::LAST + 1 {
        let Some(dom) = Dom::new(number) else {
            unreachable!();
        };
        if domains.has_chip(dom) {
            turn_all(alloc, ran, dom)?;
        }
    }
    Ok(())
}

/// Serves the frames that wait, takes the chips' reports and then their turns, and publishes. Reports change tables, so turns come
/// behind them; a turn changes none.
pub fn drain<R: Wait>(
    rt: &R,
    alloc: Global,
    ran: &mut Ran,
    seat: &mut Seat,
    domains: &Domains,
) -> Result<(), NoMemory>
    requires seat { seat.old.board ≡ ran.old.board }
    requires domains { ran.old.setup.domains ≡ domains.now }
    requires held { (world_of ran.old).held ≡ [] }
    ensures ok { OnOk result (Drained ran.old ran.new) }
    ensures board { seat.new.board ≡ seat.old.board }
{
    serve_all(alloc, ran, seat)?;
    report_chips(alloc, ran, domains)?;
    turn_chips(alloc, ran, domains)?;
    ran.publish(rt, alloc)?;
    Ok(())
}
