//! Lines, with room for more.
ghost use Rattle.std.specs.Prelude.{◌≡◌, ◌⊎◌, ◌+◌, ◌-◌, ◌*◌, ◌<◌, ◌≤◌, ◌++◌, ◌∷◌, [], length, map, vec_len, vec_capacity, OnOk, OnErr};
ghost use Rattle.std.specs.List.{list_any};
ghost use Rattle.br_model.specs.declared.transcript.Line.TheVariants as line;
ghost use Rattle.br_model.specs.Plane.LineTraits.{is_done};
ghost use Rattle.transcript_lines.specs.Rows.{at, expand, moved_row, room, row_is_done, sent_lines, AreBehind, Fit, IsPlain, StoresTagged};

use crate::row::{Row, Span};
use br_model::NoMemory;
use br_model::numbers::Port;
use br_model::transcript::Line;
use port_sets::Ports;
use std::alloc::Global;
use std::marker::Model;
use std::mem;

/// Lines in the order in which they are written, and room for more. Room is taken first; what is pushed into it can't fail, and
/// neither can a copy of what stands behind the savepoint.
///
/// Contracts see the list of the lines, those before the savepoint, and how many more rows and bytes there is room for.
#[derive(Drop)]
pub struct Lines {
    rows: Vec<Row>,
    bytes: Vec<u8>,
    // How many rows and bytes there were when the savepoint was set.
    saved_rows: usize,
    saved_bytes: usize,
    // The room for a copy of what stands behind the savepoint.
    copied_rows: Vec<Row>,
    copied_bytes: Vec<u8>,
}

impl Model for Lines {
    ghost use Rattle.std.specs.Prelude.{◌≡◌, [], take, vec_len, vec_capacity};
    ghost use Rattle.transcript_lines.specs.Rows.{Listed, AreSaved, Fit, expand, room};

    ghost Value = { Listed };

    ghost view = { λ l. record {
      lines = expand l.bytes.items l.rows.items;
      saved = expand l.bytes.items (take l.saved_rows l.rows.items);
      rows = room (vec_len l.rows) (vec_capacity l.rows) l.saved_rows (vec_capacity l.copied_rows);
      bytes = room (vec_len l.bytes) (vec_capacity l.bytes) l.saved_bytes (vec_capacity l.copied_bytes);
    } };

    ghost invariant = { λ l. AreSaved l.bytes.items l.rows.items l.saved_rows l.saved_bytes
        × Fit (vec_len l.rows) (vec_capacity l.rows) l.saved_rows (vec_capacity l.copied_rows)
        × Fit (vec_len l.bytes) (vec_capacity l.bytes) l.saved_bytes (vec_capacity l.copied_bytes)
        × (l.copied_rows.items ≡ []) × (l.copied_bytes.items ≡ []) };
}

/// Room for so many more, and for them in a copy of those behind the savepoint.
#[inline(always)]
fn reserve_twice<T>(
    all: &mut Vec<T>,
    copied: &mut Vec<T>,
    saved: usize,
    more: usize,
) -> Result<(), NoMemory>
    requires saved { saved ≤ vec_len all.old }
    requires fit { Fit (vec_len all.old) (vec_capacity all.old) saved (vec_capacity copied.old) }
    requires empty { copied.old.items ≡ [] }
    ensures all { all.new.items ≡ all.old.items }
    ensures empty { copied.new.items ≡ [] }
    ensures fit { Fit (vec_len all.new) (vec_capacity all.new) saved (vec_capacity copied.new) }
    ensures kept { room (vec_len all.old) (vec_capacity all.old) saved (vec_capacity copied.old) ≤ room (vec_len all.new) (vec_capacity all.new) saved (vec_capacity copied.new) }
    ensures ok { OnOk result (more ≤ room (vec_len all.new) (vec_capacity all.new) saved (vec_capacity copied.new)) }
    ensures err { OnErr result (room (vec_len all.new) (vec_capacity all.new) saved (vec_capacity copied.new) < more) }
{
    let behind = all.len() - saved;
    all.reserve(more)?;
    copied.reserve(behind + more)
}

/// Adds bytes, for which there is room.
fn add(arena: &mut Vec<u8>, bytes: &[u8])
    requires { vec_len arena.old + length bytes.now ≤ vec_capacity arena.old }
    ensures items { arena.new.items ≡ arena.old.items ++ bytes.now }
    ensures len { vec_len arena.new ≡ vec_len arena.old + length bytes.now }
    ensures capacity { vec_capacity arena.old ≤ vec_capacity arena.new }
{
    match arena.extend_from_slice(bytes) {
        Ok(()) => {}
        Err(_) => unreachable!(),
    }
}

/// Adds three parts of bytes, for which there is room, and tells where they stand.
fn store(arena: &mut Vec<u8>, front: &[u8], tag: &[u8], rest: &[u8]) -> Span
    requires { vec_len arena.old + (length front.now + (length tag.now + length rest.now)) ≤ vec_capacity arena.old }
    ensures items { arena.new.items ≡ arena.old.items ++ (front.now ++ (tag.now ++ rest.now)) }
    ensures len { vec_len arena.new ≡ vec_len arena.old + (length front.now + (length tag.now + length rest.now)) }
    ensures capacity { vec_capacity arena.old ≤ vec_capacity arena.new }
    ensures from { result.from ≡ length arena.old.items }
    ensures size { result.len ≡ length (front.now ++ (tag.now ++ rest.now)) }
{
    let from = arena.len();
    add(arena, front);
    add(arena, tag);
    add(arena, rest);
    Span {
        from,
        len: arena.len() - from,
    }
}

/// Adds the tagged form where it leaves one of the ports, and nothing else.
fn store_tagged(
    arena: &mut Vec<u8>,
    ports: Ports,
    untagged: Ports,
    front: &[u8],
    tag: &[u8],
    rest: &[u8],
) -> Span
    requires { vec_len arena.old + (length front.now + (length tag.now + length rest.now)) ≤ vec_capacity arena.old }
    ensures form { StoresTagged arena.old.items arena.new.items ports untagged (front.now ++ (tag.now ++ rest.now)) result }
    ensures capacity { vec_capacity arena.old ≤ vec_capacity arena.new }
{
    ports.members_ascend();
    if ports.minus(untagged).is_empty() {
        return Span {
            from: arena.len(),
            len: 0,
        };
    }
    store(arena, front, tag, rest)
}

/// Adds copies of rows, for which there is room, over an arena without the first bytes, which are so many.
fn add_moved(rows: &mut Vec<Row>, of: &[Row], front: usize)
    requires room { vec_len rows.old + length of.now ≤ vec_capacity rows.old }
    requires behind { AreBehind front of.now }
    ensures items { rows.new.items ≡ rows.old.items ++ map (moved_row front) of.now }
    ensures len { vec_len rows.new ≡ vec_len rows.old + length of.now }
    ensures capacity { vec_capacity rows.new ≡ vec_capacity rows.old }
{
    for place in 0..of.len() {
        rows.push_reserved(of[place].moved(front));
    }
}

/// Whether some line of these rows says that a step was done.
fn any_done(rows: &[Row]) -> bool
    ensures { result ≡ list_any row_is_done rows.now }
{
    rows.iter().any(|row| row.is_done())
}

impl Lines {
    /// No line, and no room: it takes no memory.
    pub fn new(alloc: Global) -> Lines
        ensures { result ≡ record { lines = []; saved = []; rows = 0; bytes = 0 } }
    {
        Lines {
            rows: Vec::new(alloc),
            bytes: Vec::new(alloc),
            saved_rows: 0,
            saved_bytes: 0,
            copied_rows: Vec::new(alloc),
            copied_bytes: Vec::new(alloc),
        }
    }

    /// The lines leave, and the room stays.
    pub fn clear(&mut self)
        ensures lines { self.new.lines ≡ [] }
        ensures saved { self.new.saved ≡ [] }
        ensures rows { self.old.rows ≤ self.new.rows }
        ensures bytes { self.old.bytes ≤ self.new.bytes }
    {
        self.saved_rows = 0;
        self.saved_bytes = 0;
        self.rows.clear();
        self.bytes.clear();
    }

    /// Room for so many more rows and bytes.
    #[inline(always)]
    pub fn reserve(&mut self, rows: usize, bytes: usize) -> Result<(), NoMemory>
        ensures lines { self.new.lines ≡ self.old.lines }
        ensures saved { self.new.saved ≡ self.old.saved }
        ensures rows { OnOk result (rows ≤ self.new.rows) }
        ensures bytes { OnOk result (bytes ≤ self.new.bytes) }
        ensures err { OnErr result ((self.new.rows < rows) ⊎ (self.new.bytes < bytes)) }
        ensures kept_rows { self.old.rows ≤ self.new.rows }
        ensures kept_bytes { self.old.bytes ≤ self.new.bytes }
    {
        self.reserve_rows(rows)?;
        reserve_twice(
            &mut self.bytes,
            &mut self.copied_bytes,
            self.saved_bytes,
            bytes,
        )
    }

    /// Room for so many more rows.
    #[inline(always)]
    fn reserve_rows(&mut self, rows: usize) -> Result<(), NoMemory>
        ensures lines { self.new.lines ≡ self.old.lines }
        ensures saved { self.new.saved ≡ self.old.saved }
        ensures bytes { self.new.bytes ≡ self.old.bytes }
        ensures kept { self.old.rows ≤ self.new.rows }
        ensures ok { OnOk result (rows ≤ self.new.rows) }
        ensures err { OnErr result (self.new.rows < rows) }
    {
        reserve_twice(&mut self.rows, &mut self.copied_rows, self.saved_rows, rows)
    }

    /// Adds a line without bytes.
    pub fn push(&mut self, line: Line) -> Result<(), NoMemory>
        requires { IsPlain line }
        ensures ok { OnOk result (self.new.lines ≡ self.old.lines ++ line ∷ []) }
        ensures err { OnErr result (self.new ≡ self.old) }
        ensures saved { self.new.saved ≡ self.old.saved }
        ensures bytes { self.new.bytes ≡ self.old.bytes }
    {
        self.reserve_rows(1)?;
        self.push_reserved(line);
        Ok(())
    }

    /// Adds a line without bytes, for which there is room.
    pub fn push_reserved(&mut self, line: Line)
        requires room { 1 ≤ self.old.rows }
        requires plain { IsPlain line }
        ensures lines { self.new.lines ≡ self.old.lines ++ line ∷ [] }
        ensures saved { self.new.saved ≡ self.old.saved }
        ensures rows { self.new.rows + 1 ≡ self.old.rows }
        ensures bytes { self.new.bytes ≡ self.old.bytes }
    {
        self.rows.push_reserved(Row::One(line));
    }

    /// Adds the line of a control frame, for which there is room.
    pub fn push_ctl(&mut self, port: Port, bytes: &[u8])
        requires rows { 1 ≤ self.old.rows }
        requires bytes { length bytes.now ≤ self.old.bytes }
        ensures lines { self.new.lines ≡ self.old.lines ++ line.Ctl port bytes.now ∷ [] }
        ensures saved { self.new.saved ≡ self.old.saved }
        ensures rows { self.new.rows + 1 ≡ self.old.rows }
        ensures bytes { self.old.bytes ≤ self.new.bytes + length bytes.now }
    {
        let bytes = store(&mut self.bytes, &[], &[], bytes);
        self.rows.push_reserved(Row::Ctl { port, bytes });
    }

    /// Adds the lines of a frame that leaves these ports, for which there is room. Its plain bytes, those at the untagged ports, are
    /// `front` and `rest`; elsewhere the tag stands between them. Each form that is wanted is written once, whatever the number of ports.
    pub fn push_sent(
        &mut self,
        id: u32,
        ports: Ports,
        untagged: Ports,
        front: &[u8],
        tag: &[u8],
        rest: &[u8],
    )
        requires rows { 1 ≤ self.old.rows }
        requires bytes { (length front.now + length rest.now) + (length front.now + (length tag.now + length rest.now)) ≤ self.old.bytes }
        ensures lines { self.new.lines ≡ self.old.lines ++ sent_lines id ports untagged (front.now ++ rest.now) (front.now ++ (tag.now ++ rest.now)) }
        ensures saved { self.new.saved ≡ self.old.saved }
        ensures rows { self.new.rows + 1 ≡ self.old.rows }
        ensures bytes { self.old.bytes ≤ self.new.bytes + ((length front.now + length rest.now) + (length front.now + (length tag.now + length rest.now))) }
    {
        let plain = store(&mut self.bytes, front, &[], rest);
        let tagged = store_tagged(&mut self.bytes, ports, untagged, front, tag, rest);
        self.rows.push_reserved(Row::Sent {
            id,
            ports,
            untagged,
            plain,
            tagged,
        });
    }

    /// Sets the savepoint behind the lines that there are.
    pub fn save(&mut self)
        ensures saved { self.new.saved ≡ self.old.lines }
        ensures lines { self.new.lines ≡ self.old.lines }
        ensures rows { self.old.rows ≤ self.new.rows }
        ensures bytes { self.old.bytes ≤ self.new.bytes }
    {
        self.saved_rows = self.rows.len();
        self.saved_bytes = self.bytes.len();
    }

    /// The lines behind the savepoint, copied into the room that is kept for that. The savepoint is set behind them.
    pub fn copy_out(&mut self, alloc: Global) -> Lines
        ensures copy { self.old.lines ≡ self.old.saved ++ result.lines }
        ensures lines { self.new.lines ≡ self.old.lines }
        ensures saved { self.new.saved ≡ self.old.lines }
    {
        let mut rows = mem::replace(&mut self.copied_rows, Vec::new(alloc));
        let mut bytes = mem::replace(&mut self.copied_bytes, Vec::new(alloc));
        add_moved(&mut rows, &self.rows[self.saved_rows..], self.saved_bytes);
        add(&mut bytes, &self.bytes[self.saved_bytes..]);
        self.saved_rows = self.rows.len();
        self.saved_bytes = self.bytes.len();
        Lines {
            saved_rows: rows.len(),
            saved_bytes: bytes.len(),
            rows,
            bytes,
            copied_rows: Vec::new(alloc),
            copied_bytes: Vec::new(alloc),
        }
    }

    /// Takes back the lines behind the savepoint.
    pub fn cut(&mut self)
        ensures lines { self.new.lines ≡ self.old.saved }
        ensures saved { self.new.saved ≡ self.old.saved }
        ensures rows { self.old.rows ≤ self.new.rows }
        ensures bytes { self.new.bytes ≡ self.old.bytes }
    {
        self.rows.truncate(self.saved_rows);
    }

    /// The rows, and the arena in which their bytes stand: these rows over these bytes stand for the lines.
    pub fn parts(&self) -> (&[Row], &[u8])
        ensures { expand result.1.now result.0.now ≡ self.now.lines }
    {
        (self.rows.as_slice(), self.bytes.as_slice())
    }
    /// Whether some line says that a step was done.
    pub fn any_done(&self) -> bool
        ensures { result ≡ list_any is_done self.now.lines }
    {
        let (rows, _) = self.parts();
        any_done(rows)
    }
}
