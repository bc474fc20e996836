//! Two threads at the two ends of a queue, and what a taker was told.
ghost use Rattle.std.specs.Prelude.{◌≡◌, ◌≤◌, [], length};
ghost use Rattle.std.specs.Bool.{OnTrue};
ghost use Rattle.deferred_queue.specs.Tally.{posts_in};

use super::common::{assert_same, assert_that};
use br_model::change::{Change, Update};
use br_model::numbers::{Mac, Vid};
use deferred_queue::{Poster, Taker, make};
use std::sync::Wait;
use std::test::Fail;
use std::thread::join;

const MANY: u32 = 100_000;

/// The deletion of an address that is as the ticket is.
fn update(ticket: u32) -> Update
    ensures { result.ticket ≡ ticket }
{
    let [a, b, c, d] = ticket.to_be_bytes();
    Update {
        ticket,
        change: Change::AddrDel {
            vid: Vid::DEFAULT,
            mac: Mac::new([2, 0, a, b, c, d]),
        },
    }
}

/// Whether the update is the one that was posted with this ticket.
fn is_update(update: &Update, ticket: u32) -> bool {
    let [a, b, c, d] = ticket.to_be_bytes();
    match update.change {
        Change::AddrDel { vid: _, mac } => {
            update.ticket == ticket && mac == Mac::new([2, 0, a, b, c, d])
        }
        _ => false,
    }
}

fn post_all<R: Wait>(rt: &R, mut poster: Poster) -> Poster
    requires { poster.posted ≡ [] }
{
    for ticket in 0..MANY {
        poster.post(rt, update(ticket));
    }
    poster
}

fn take_all<R: Wait>(rt: &R, mut taker: Taker) -> (Taker, u32, bool) {
    let mut next = 0u32;
    let mut right = true;
    for _ in 0..4_294_967_296u64 {
        if next >= MANY {
            break;
        }
        if let Some(update) = taker.take(rt) {
            right = right && is_update(&update, next);
            next += 1;
        }
    }
    (taker, next, right)
}

/// Whether the next update is there, and is the one with this ticket.
fn takes<R: Wait>(rt: &R, taker: &mut Taker, ticket: u32) -> bool
    ensures { taker.new.queue ≡ taker.old.queue }
{
    match taker.take(rt) {
        Some(update) => is_update(&update, ticket),
        None => false,
    }
}

/// Whether the first two updates are there, and no third one.
fn takes_two<R: Wait>(rt: &R, taker: &mut Taker) -> bool
    ensures { taker.new.queue ≡ taker.old.queue }
{
    takes(rt, taker, 0) && takes(rt, taker, 1) && !takes(rt, taker, 2)
}

/// Takes until nothing is found, so all that the taker had been told of was taken. `false` after as many takes as tell nothing.
#[tactic(auto, using(deferred_queue::proofs::Counts::sees))]
fn takes_what_was_told<R: Wait>(rt: &R, taker: &mut Taker) -> bool
    ensures queue { taker.new.queue ≡ taker.old.queue }
    ensures taken { OnTrue result (posts_in taker.old.past ≤ length taker.new.taken) }
{
    for _ in 0..=MANY {
        if taker.take(rt).is_none() {
            return true;
        }
    }
    false
}

/// Takes all that is left. That it then was all that was posted follows from the contracts alone.
fn takes_all<R: Wait>(rt: &R, poster: &mut Poster, taker: &mut Taker) -> bool
    requires { taker.old.queue ≡ poster.old.queue }
    ensures { OnTrue result (taker.new.taken ≡ poster.old.posted) }
{
    poster.tell(taker);
    let found_nothing = takes_what_was_told(rt, taker);
    poster.tell(taker);
    found_nothing
}

#[test]
fn what_is_taken_and_left_is_what_was_posted(rt: HostRuntime) -> Result<(), Fail> {
    let (poster, taker) = make(rt.alloc())?;
    let (_poster, (mut taker, seen, right)) = join(
        &rt,
        || post_all(&rt, poster),
        || take_all(&rt, taker),
    );
    assert_that(&rt, right, "each in its turn");
    for ticket in seen..MANY {
        assert_that(&rt, takes(&rt, &mut taker, ticket), "what is left");
    }
    assert_that(&rt, !takes(&rt, &mut taker, MANY), "no more");
    Ok(())
}

#[test]
fn what_was_told_is_taken(rt: HostRuntime) -> Result<(), Fail> {
    let (mut poster, mut taker) = make(rt.alloc())?;
    poster.post(&rt, update(0));
    poster.post(&rt, update(1));
    assert_same(&rt, &poster.posted(), &2, "what was posted");
    poster.tell(&mut taker);
    assert_that(&rt, takes_two(&rt, &mut taker), "the first two");
    poster.post(&rt, update(2));
    assert_that(&rt, takes_all(&rt, &mut poster, &mut taker), "all of it");
    Ok(())
}
