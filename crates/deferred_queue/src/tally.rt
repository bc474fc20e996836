//! How many updates were counted as posted: one number that both ends step on, and its rule, which exists in proofs alone.
ghost use Rattle.std.specs.Prelude.{◌≡◌, ◌+◌, ◌≤◌, [], IfOk};
ghost use Rattle.std.specs.Bool.{OnTrue, OnFalse};
ghost use Rattle.deferred_queue.specs.Tally.{counting, looking, posts_in, looks_in, KnownBut, Looked, Watches};

use crate::NoMemory;
use atomic_table::{Join, Play, Seat, Split, Table, TableRule};
use std::alloc::Global;
use std::collections::LinkedList;

/// One more was counted, or it was looked how many were.
pub enum Event {
    Post,
    Look,
}

/// What a view may do, and all that happened up to its own last step: the last that counted, the last that looked. No value of it
/// is made.
pub struct Past {
    pub posts: bool,
    pub takes: bool,
    pub counted: LinkedList<Event>,
    pub looked: LinkedList<Event>,
}

pub(crate) struct InTurn;

impl TableRule<(), Past, ()> for InTurn {
    ghost use Rattle.std.specs.Prelude.{true, []};
    ghost use Rattle.deferred_queue.specs.Tally.{past, Kept};

    ghost holds = { λ _. Kept };

    ghost first = { λ _. past true true [] [] };
}

/// A view that does both is cut in two.
struct TwoViews;

impl Split<Past> for TwoViews {
    ghost use Rattle.deferred_queue.specs.Tally.{counting, looking};

    ghost left = { λ v. counting v.counted };

    ghost right = { λ v. looking v.looked };
}

/// A view leaves all that it has to a new one.
struct WholeView;

impl Split<Past> for WholeView {
    ghost use Rattle.deferred_queue.specs.Tally.{spent};

    ghost left = { λ _. spent };

    ghost right = { λ v. v };
}

/// The view that counts takes in the one that looks.
struct BothViews;

impl Join<Past> for BothViews {
    ghost use Rattle.std.specs.Prelude.{true};
    ghost use Rattle.deferred_queue.specs.Tally.{past, spent};

    ghost both = { λ v w. past true true v.counted w.looked };

    ghost spent = { spent };
}

struct Counts;

impl Play<(), Past> for Counts {
    ghost use Rattle.deferred_queue.specs.Tally.{Counted};

    ghost then = { λ _ before _ after. Counted before after };
}

struct Looks;

impl Play<(), Past> for Looks {
    ghost use Rattle.deferred_queue.specs.Tally.{LookedFor};

    ghost then = { λ step before found after. LookedFor step.first before found after };
}

struct Meets;

impl Play<(), Past> for Meets {
    ghost use Rattle.deferred_queue.specs.Tally.{Met};

    ghost then = { λ _ before _ after. Met before after };
}

/// A view of the number. It has no bytes.
pub(crate) type Watch = Seat<(), Past>;

#[derive(Drop)]
pub(crate) struct Tally {
    table: Table<(), Past, (), InTurn, Global>,
    ghost sized: { table.shared.table_id.words ≡ 1 },
}

impl Tally {
    /// Nothing is counted yet. The first view counts, the second looks.
    pub(crate) fn make(alloc: Global) -> Result<(Tally, Watch, Watch), NoMemory>
        ensures counting { IfOk result (λ t. Watches t.1 t.0.table.shared.table_id (counting [])) }
        ensures looking { IfOk result (λ t. Watches t.2 t.0.table.shared.table_id (looking [])) }
    {
        let (table, mut watch) = Table::of_words(alloc, &[0], &())?;
        let theirs = table.shared.split_seat::<TwoViews>(&mut watch);
        Ok((Tally { table }, watch, theirs))
    }

    /// Counts one more, which makes `number`.
    pub(crate) fn count(&self, watch: &mut Watch, number: u64)
        requires watch { Watches watch.old self.now.table.shared.table_id (counting watch.old.me.0.counted) }
        requires next { number ≡ posts_in watch.old.me.0.counted + 1 }
        ensures watch { Watches watch.new self.now.table.shared.table_id (counting watch.new.me.0.counted) }
        ensures counted { posts_in watch.new.me.0.counted ≡ number }
    {
        self.table.shared.store::<Counts>(watch, 0, number);
    }

    /// Whether at most so many were counted, at a step that the view then keeps.
    pub(crate) fn is_at_most(&self, watch: &mut Watch, most: u64) -> bool
        requires { Watches watch.old self.now.table.shared.table_id (looking watch.old.me.0.looked) }
        ensures watch { Watches watch.new self.now.table.shared.table_id (looking watch.new.me.0.looked) }
        ensures yes { OnTrue result (Looked watch.old.me.0.looked watch.new.me.0.looked × (posts_in watch.new.me.0.looked ≤ most)) }
        ensures no { OnFalse result (watch.new.me ≡ watch.old.me) }
    {
        let shared = &self.table.shared;
        let found = shared.peek(0);
        found <= most && shared.compare_exchange::<Looks>(watch, 0, found, found) == found
    }
    /// Tells the view that looks all that was counted.
    pub(crate) fn tell(&self, watch: &mut Watch, theirs: &mut Watch)
        requires watch { Watches watch.old self.now.table.shared.table_id (counting watch.old.me.0.counted) }
        requires theirs { Watches theirs.old self.now.table.shared.table_id (looking theirs.old.me.0.looked) }
        ensures watch { Watches watch.new self.now.table.shared.table_id (counting watch.new.me.0.counted) }
        ensures theirs { Watches theirs.new self.now.table.shared.table_id (looking theirs.new.me.0.looked) }
        ensures counted { posts_in watch.new.me.0.counted ≡ posts_in watch.old.me.0.counted }
        ensures told { KnownBut looks_in theirs.old.me.0.looked theirs.new.me.0.looked × (posts_in theirs.new.me.0.looked ≡ posts_in watch.old.me.0.counted) }
    {
        let shared = &self.table.shared;
        let whole = shared.split_seat::<WholeView>(theirs);
        shared.join_seat::<BothViews>(watch, whole);
        shared.load::<Meets>(watch, 0);
        *theirs = shared.split_seat::<TwoViews>(watch);
    }
}
