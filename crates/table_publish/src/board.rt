//! The board, which publishes, and the seats that it is made with.
ghost use Rattle.std.specs.Prelude.{◌≡◌, ◌+◌, ◌-◌, ◌<◌, ◌≤◌, ◌++◌, ◌∷◌, ◌↔◌, [], drop, length, replicate, IfOk, OnOk, OnErr, IfSome, IsSome, IsTrue};
ghost use Rattle.left_right.specs.Sides.{view as place_view};
ghost use Rattle.br_model.specs.Table.Limits.{AreWithin, most_changes};
ghost use Rattle.table_publish.specs.Board.{all_of, newcomer};
ghost use Rattle.table_publish.specs.Content.{after, IsTable};
ghost use Rattle.table_publish.specs.Law.{head_of};
ghost use Rattle.table_publish.specs.Object.{Begins, IsPublished, first_object, published};
ghost use Rattle.table_publish.specs.Rule.{Knows};

use crate::NoMemory;
use crate::content::{Operation, Published};
use crate::law::{Add, Batch, Count, Law, Nothing, Shown};
use crate::packed::Packed;
use crate::rule::{Naming, Note, See, TableWriter};
use crate::seat::Seat;
use br_model::change::Change;
use br_model::domains::Domains;
use br_model::limits::MOST_CHANGES;
use core::mem::replace_with;
use forward_rules::SoftTables;
use logbook::{Offer, Start};
use std::alloc::{AllocError, Global};
use std::marker::Model;
use std::mem;
use std::sync::Wait;

/// The one who publishes. Contracts see which board it is, its published object and its pending changes. It isn't `Drop`: end it by
/// `end`.
pub struct Board {
    writer: TableWriter,
    word: Count,
    seen: Shown,
    batches: u64,
    len: u32,
    // It has its room from the beginning.
    pending: Packed,
    domains: Domains,
}

impl Model for Board {
    ghost use Rattle.table_publish.specs.Board.{Shelf};
    ghost use Rattle.table_publish.specs.Object.{object_of};
    ghost use Rattle.table_publish.specs.Shelved.{IsShelved};

    ghost Value = { Shelf };

    ghost view = { λ b. record { board = record { book = b.seen.book; domains = b.domains }; object = object_of b.seen.log; pending = b.pending.list } };

    ghost invariant = { IsShelved };
}

/// Adds a batch to the book of all publications. The board alone adds, so the book is as it was seen: the exchange is made once.
fn enter_batch<R: Wait>(rt: &R, word: &Count, seen: &Shown, batches: u64, changes: &Packed) -> Shown
    requires word { word.now ≡ head_of seen.now.book }
    requires batches { (batches ≡ length seen.now.log) × (batches ≤ most_changes) }
    requires some { 0 < length changes.now.list }
    ensures book { result.book ≡ seen.now.book }
    ensures log { result.log ≡ seen.now.log ++ changes.now.list ∷ [] }
{
    for _ in rt.forever() {
        let mut seen = seen.again();
        let mut offer: Offer<Batch, u64, Law, Nothing> = seen.plain::<Nothing, Packed, Add>(
            changes,
        );
        let mut pen = seen.no_pen();
        let found = word.compare_exchange::<Add, Nothing>(
            batches,
            batches + 1,
            &mut seen,
            &mut offer,
            &mut pen,
        );
        if found == batches {
            return seen;
        }
    }
    unreachable!()
}

/// So many pending changes are copied into their publication at most.
const MOST_COPIED: usize = 4096;

/// Takes all changes out. The room stays. A few are copied: room for a whole history costs two calls of the system.
fn take_pending(alloc: Global, pending: &mut Packed) -> Result<Packed, NoMemory>
    requires { most_changes ≤ pending.old.room }
    ensures items { IfOk result (λ taken. taken.list ≡ pending.old.list) }
    ensures empty { OnOk result (pending.new.list ≡ []) }
    ensures room { most_changes ≤ pending.new.room }
    ensures err { OnErr result (pending.new ≡ pending.old) }
{
    if pending.len() > MOST_COPIED {
        let empty = Packed::make(alloc, MOST_CHANGES)?;
        return Ok(mem::replace(pending, empty));
    }
    let taken = pending.copy(alloc)?;
    pending.clear();
    Ok(taken)
}

/// Gives the writer an operation. Its log has had room since the board was made, so the operation goes in at once.
fn hand_over<R: Wait>(rt: &R, writer: &mut TableWriter, operation: Operation)
    ensures desk { writer.new.desk ≡ writer.old.desk }
    ensures pending { drop writer.new.behind writer.new.log.items ≡ drop writer.old.behind writer.old.log.items ++ operation ∷ [] }
{
    let mut left = operation;
    for _ in rt.forever() {
        match writer.append(left) {
            Ok(()) => return,
            Err(back) => left = back,
        }
    }
    unreachable!()
}

/// Shows readers the tables after one operation.
fn show<R: Wait>(writer: TableWriter, with: (&R, Operation)) -> (TableWriter, ())
    requires idle { drop writer.behind writer.log.items ≡ [] }
    requires table { IsTable (after writer.desk.shown.value with.1) }
    requires book { with.1.seen.book ≡ writer.desk.shown.value.seen.book }
    ensures shown { result.0.desk.shown.value ≡ after writer.desk.shown.value with.entry.1 }
    ensures idle { drop result.0.behind result.0.log.items ≡ [] }
    ensures same { place_view result.0.desk.place ≡ place_view writer.desk.place }
{
    let mut writer = writer;
    let (rt, operation) = with;
    hand_over(rt, &mut writer, operation);
    let (writer, done) = writer.publish_as::<See, R>(rt);
    match done {
        Ok(()) => {}
        Err(_) => unreachable!(),
    }
    (writer, ())
}

/// What is published first.
fn start(alloc: Global, seen: &Shown) -> Result<Published, NoMemory>
    requires { seen.now.log ≡ [] }
    ensures table { IfOk result IsTable }
    ensures seen { IfOk result (λ p. p.seen ≡ seen.now) }
{
    Ok(Published {
        tables: SoftTables::make(alloc)?,
        len: 0,
        batches: 0,
        seen: seen.again(),
    })
}

/// Publishes an operation that changes nothing, after which the writer knows its book, and its log has room for what it gets later
/// on. `false` where there is no memory.
fn open_book<R: Wait>(writer: TableWriter, rt: &R, operation: Operation) -> (TableWriter, bool)
    requires idle { drop writer.behind writer.log.items ≡ [] }
    requires table { IsTable writer.desk.shown.value }
    requires seen { operation.seen ≡ writer.desk.shown.value.seen }
    requires none { (operation.changes.list ≡ []) × (operation.batches ≡ writer.desk.shown.value.batches) }
    ensures idle { drop result.0.behind result.0.log.items ≡ [] }
    ensures table { IsTrue result.1 → IsTable result.0.desk.shown.value }
    ensures seen { IsTrue result.1 → result.0.desk.shown.value.seen ≡ operation.seen }
    ensures named { IsTrue result.1 → Knows (place_view result.0.desk.place) operation.seen.book }
{
    let mut writer = writer;
    match writer.append(operation) {
        Ok(()) => {}
        Err(_) => return (writer, false),
    }
    let (writer, done) = writer.publish_as::<Naming, R>(rt);
    match done {
        Ok(()) => {}
        Err(_) => unreachable!(),
    }
    (writer, true)
}

/// A new seat of the writer's board.
fn seat_of(writer: &mut TableWriter, domains: &Domains, seen: &Shown) -> Result<Seat, NoMemory>
    requires named { Knows (place_view writer.old.desk.place) seen.now.book }
    requires none { seen.now.log ≡ [] }
    ensures shown { writer.new.desk.shown.value ≡ writer.old.desk.shown.value }
    ensures pending { drop writer.new.behind writer.new.log.items ≡ drop writer.old.behind writer.old.log.items }
    ensures same { place_view writer.new.desk.place ≡ place_view writer.old.desk.place }
    ensures seat { IfOk result (λ s. s ≡ newcomer (record { book = seen.now.book; domains = domains.now })) }
{
    let mut reader = writer.factory().reader()?;
    reader.learn::<Note>(writer.tell::<Note>());
    Ok(Seat {
        reader: Some(reader),
        domains: domains.again(),
        seen: seen.again(),
        batches: 0,
        misses: 0,
    })
}

/// So many new seats.
fn fill(
    writer: &mut TableWriter,
    domains: &Domains,
    seen: &Shown,
    row: &mut Vec<Seat>,
    seats: usize,
) -> Result<(), NoMemory>
    requires named { Knows (place_view writer.old.desk.place) seen.now.book }
    requires none { seen.now.log ≡ [] }
    requires empty { row.old.items ≡ [] }
    ensures shown { writer.new.desk.shown.value ≡ writer.old.desk.shown.value }
    ensures pending { drop writer.new.behind writer.new.log.items ≡ drop writer.old.behind writer.old.log.items }
    ensures same { place_view writer.new.desk.place ≡ place_view writer.old.desk.place }
    ensures seats { OnOk result (row.new.items ≡ replicate seats (newcomer (record { book = seen.now.book; domains = domains.now }))) }
{
    for _ in 0..seats {
        let seat = seat_of(writer, domains, seen)?;
        row.push(seat)?;
    }
    Ok(())
}

/// The seats that a board was made with. Contracts see which board, and how many are left.
#[derive(Drop)]
pub struct Seats {
    row: Vec<Seat>,
    seen: Shown,
    domains: Domains,
}

impl Model for Seats {
    ghost use Rattle.std.specs.Prelude.{◌≡◌, length, replicate};
    ghost use Rattle.table_publish.specs.Board.{Row, newcomer};

    ghost Value = { Row };

    ghost view = { λ s. record { board = record { book = s.seen.book; domains = s.domains }; left = length s.row.items } };

    ghost invariant = { λ s. s.row.items ≡ replicate (length s.row.items) (newcomer (record { book = s.seen.book; domains = s.domains })) };
}

impl Seats {
    /// The next seat, or `None` where all are handed out.
    pub fn next(&mut self) -> Option<Seat>
        ensures some { IsSome result ↔ (0 < self.old.left) }
        ensures seat { IfSome result (λ s. s ≡ newcomer self.old.board) }
        ensures left { self.new ≡ record self.old { left = self.old.left - 1 } }
    {
        self.row.pop()
    }
}

impl Board {
    /// A board that has published nothing, and its seats. It takes the room for all changes, and that of the tables.
    pub fn make<R: Wait>(
        rt: &R,
        alloc: Global,
        d: &Domains,
        seats: usize,
    ) -> Result<(Board, Seats), NoMemory>
        requires some { 0 < seats }
        requires few { seats ≤ 17 }
        ensures board { IfOk result (λ t. t.0 ≡ record { board = t.1.board; object = first_object; pending = [] }) }
        ensures domains { IfOk result (λ t. t.1.board.domains ≡ d.now) }
        ensures seats { IfOk result (λ t. t.1.left ≡ seats) }
    {
        let (seen, mut first, _second) = Shown::open(Start::alone(), 0, 0);
        let word = Count::tracked(0, &mut first);
        let pending = Packed::make(alloc, MOST_CHANGES)?;
        let mut row = Vec::with_capacity(alloc, seats)?;
        let one = start(alloc, &seen)?;
        let other = start(alloc, &seen)?;
        let writer = TableWriter::new(alloc, one, other, seats)?;
        let nothing = Operation {
            changes: Packed::none(alloc),
            batches: 0,
            seen: seen.again(),
        };
        let (mut writer, opened) = open_book(writer, rt, nothing);
        if !opened {
            drop(writer.take(rt));
            return Err(AllocError);
        }
        match fill(&mut writer, d, &seen, &mut row, seats) {
            Ok(()) => {
                let board = Board {
                    writer,
                    word,
                    seen: seen.again(),
                    batches: 0,
                    len: 0,
                    pending,
                    domains: d.again(),
                };
                Ok((
                    board,
                    Seats {
                        row,
                        seen,
                        domains: d.again(),
                    },
                ))
            }
            Err(error) => {
                drop(writer.take(rt));
                Err(error)
            }
        }
    }

    /// Adds changes to those that are pending. It takes no memory.
    pub fn append(&mut self, c: &[Change])
        requires { AreWithin (all_of self.old ++ c.now) }
        ensures { self.new ≡ record self.old { pending = self.old.pending ++ c.now } }
    {
        self.pending.add(c);
    }

    /// Publishes what is pending, and answers how many changes are then published. After want of memory all is as before.
    pub fn publish<R: Wait>(&mut self, rt: &R, alloc: Global) -> Result<u32, NoMemory>
        ensures ok { OnOk result (self.new ≡ record self.old { object = published self.old.object self.old.pending; pending = [] }) }
        ensures count { IfOk result (λ n. n ≡ length self.new.object.changes) }
        ensures published { IsPublished self.new.object }
        ensures err { OnErr result (self.new ≡ self.old) }
    {
        if self.pending.len() == 0 {
            return Ok(self.len);
        }
        let count = self.pending.len() as u32;
        let changes = take_pending(alloc, &mut self.pending)?;
        let seen = enter_batch(rt, &self.word, &self.seen, self.batches, &changes);
        let operation = Operation {
            changes,
            batches: self.batches + 1,
            seen: seen.again(),
        };
        replace_with(&mut self.writer, (rt, operation), show::<R>);
        self.seen = seen;
        self.batches += 1;
        self.len += count;
        Ok(self.len)
    }

    /// How many changes are published.
    pub fn published(&self) -> u32
        ensures { result ≡ length self.now.object.changes }
    {
        self.len
    }

    /// Tells a seat of this board what is published. From then on it knows no less. It takes no memory.
    pub fn tell(&mut self, s: &mut Seat)
        requires { s.old.board ≡ self.old.board }
        ensures same { self.new ≡ self.old }
        ensures board { s.new.board ≡ s.old.board }
        ensures told { Begins s.new.object self.old.object }
        ensures kept { Begins s.new.object s.old.object }
        ensures misses { s.new.misses ≡ s.old.misses }
        ensures published { IsPublished s.new.object }
    {
        let mut both = self.seen.again();
        both.learn(&s.seen);
        if s.batches < self.batches {
            s.batches = self.batches;
            s.seen = self.seen.again();
        }
    }

    /// Ends the board.
    pub fn end<R: Wait>(self, rt: &R) {
        let Board {
            writer,
            word: _,
            seen: _,
            batches: _,
            len: _,
            pending: _,
            domains: _,
        } = self;
        drop(writer.take(rt));
    }
}
