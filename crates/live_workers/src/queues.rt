//! The chips of a bridge and their queues.
ghost use Rattle.std.specs.Prelude.{◌≡◌, [], ◌∷◌, ◌++◌, ◌≤◌, true, map, IfOk, OnOk};
ghost use Rattle.std.specs.List.{All, filter};
ghost use Rattle.br_model.specs.Table.Domains.{chip_domains, has_chip, last_chip};
ghost use Rattle.plane_lock.specs.Posted.{updates_of};

use crate::NoMemory;
use br_model::domains::Domains;
use br_model::numbers::Dom;
use lists::Items;
use plane_lock::{Queue, Queues, Ran, post_updates};
use std::alloc::Global;
use std::sync::Wait;

/// The domains that have a chip, ascending.
pub(crate) type Chips = Items<Dom>;

/// Adds the domain of this number, if it has a chip.
fn add(chips: &mut Chips, number: u8, domains: &Domains) -> Result<(), NoMemory>
    requires { number ≤ last_chip }
    ensures { OnOk result (chips.new ≡ chips.old ++ filter (λ d. has_chip domains.now d) (number ∷ [])) }
{
    match Dom::new(number) {
        Some(dom) if domains.has_chip(dom) => chips.push(dom),
        _ => Ok(()),
    }
}

pub(crate) fn chips_of(alloc: Global, domains: &Domains) -> Result<Chips, NoMemory>
    ensures { IfOk result (λ chips. chips ≡ chip_domains domains.now) }
{
    let mut chips = Items::new(alloc);
    for number in 1..Dom::LAST + 1 {
        add(&mut chips, number, domains)?;
    }
    Ok(chips)
}

/// The queue of the domain's chip. It has been posted the updates of the run, and those that the chip has applied were taken.
fn queue_of<R: Wait>(rt: &R, alloc: Global, ran: &Ran, dom: Dom) -> Result<Queue, NoMemory>
    requires { has_chip ran.now.setup.domains dom ≡ true }
    ensures dom { IfOk result (λ q. q.dom ≡ dom) }
    ensures posted { IfOk result (λ q. q.poster.posted ≡ updates_of ran.now) }
{
    let (mut poster, mut taker) = deferred_queue::make(alloc)?;
    let plane = ran.plane();
    post_updates(rt, &mut poster, plane);
    for _ in 0..plane.applied(dom) {
        let _applied = taker.take(rt);
    }
    Ok(Queue { dom, poster, taker })
}

pub(crate) fn queues_of<R: Wait>(
    rt: &R,
    alloc: Global,
    ran: &Ran,
    chips: &[Dom],
) -> Result<Queues, NoMemory>
    requires { chips.now ≡ chip_domains ran.now.setup.domains }
    ensures doms { IfOk result (λ q. map (λ x. x.dom) q ≡ chips.now) }
    ensures posted { IfOk result (λ q. All (λ x. x.poster.posted ≡ updates_of ran.now) q) }
{
    let mut queues = Queues::new(alloc);
    for dom in chips {
        queues.push(queue_of(rt, alloc, ran, *dom)?)?;
    }
    Ok(queues)
}
