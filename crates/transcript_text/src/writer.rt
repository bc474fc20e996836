//! Lines of a transcript.
ghost use Rattle.std.specs.Prelude.{◌≡◌, ◌≤◌, ◌++◌, [], ◌∷◌, IfOk, OnOk, OnErr, codes, decimal, length};
ghost use Rattle.std.specs.String.{string_bytes};
ghost use Rattle.br_model.specs.Text.Transcript.{line_text, text, fault_word, class_word};
ghost use Rattle.transcript_lines.specs.Rows.{expand_row, sent_lines};
ghost use Rattle.transcript_text.specs.Extends.{Extends};

use crate::digits::Digits;
use crate::frames::FrameLine;
use crate::line_end::LineEnd;
use br_model::NoMemory;
use br_model::bytes::Bytes;
use br_model::frame::{Class, FrameFault};
use br_model::numbers::Port;
use br_model::steps::Refusal;
use br_model::transcript::Line;
use port_sets::Ports;
use std::alloc::Global;
use transcript_lines::{Lines, Row};

/// Writes lines. The digits of the frame at hand are kept, since it leaves by many ports: without its tag, and with it. Those of
/// numbers are kept for the numbers near them.
#[derive(Drop)]
pub struct Writer {
    plain: FrameLine,
    tagged: FrameLine,
    ids: Digits,
    steps: Digits,
    changes: Digits,
    applied: Digits,
}

impl Writer {
    /// Allocates nothing.
    pub fn new(alloc: Global) -> Writer {
        Writer {
            plain: FrameLine::new(alloc),
            tagged: FrameLine::new(alloc),
            ids: Digits::new(),
            steps: Digits::new(),
            changes: Digits::new(),
            applied: Digits::new(),
        }
    }

    /// Writes the line with its line feed behind the text. After want of memory a part of it may stand there.
    #[inline(always)]
    pub fn append(&mut self, line: &Line, to: &mut String) -> Result<(), NoMemory>
        ensures ok { OnOk result (string_bytes to.new ≡ string_bytes to.old ++ line_text line.now) }
        ensures err { OnErr result (Extends (string_bytes to.old) (string_bytes to.new)) }
    {
        match line {
            Line::Chip {
                id,
                changes,
                applied,
                class,
            } => self.append_chip(*id, *changes, *applied, *class, to),
            Line::Unread { id, why } => append_unread(*id, *why, to),
            Line::Soft { id, point } => self.append_soft(*id, *point, to),
            Line::Held { id, floor } => append_held(*id, *floor, to),
            Line::Tx { id, port, bytes } => self.append_tx(*id, *port, bytes, to),
            Line::Ctl { port, bytes } => self.append_ctl(*port, bytes.as_slice(), to),
            Line::Overrun { id } => append_overrun(*id, to),
            Line::Done { step, changes } => self.append_done(*step, *changes, to),
            Line::Refused { step, refusal } => self.append_refused(*step, *refusal, to),
            Line::End {
                steps,
                changes,
                pending,
                waiting,
            } => append_end(*steps, *changes, *pending, *waiting, to),
        }
    }

    /// Writes the lines one after another behind the text. After want of memory a part of them may stand there.
    pub fn append_lines(&mut self, lines: &Lines, to: &mut String) -> Result<(), NoMemory>
        ensures ok { OnOk result (string_bytes to.new ≡ string_bytes to.old ++ text lines.now.lines) }
        ensures err { OnErr result (Extends (string_bytes to.old) (string_bytes to.new)) }
    {
        let (rows, arena) = lines.parts();
        for row in rows {
            self.append_row(row, arena, to)?;
        }
        Ok(())
    }

    /// Writes the lines that the row stands for.
    fn append_row(&mut self, row: &Row, arena: &[u8], to: &mut String) -> Result<(), NoMemory>
        ensures ok { OnOk result (string_bytes to.new ≡ string_bytes to.old ++ text (expand_row arena.now row.now)) }
        ensures err { OnErr result (Extends (string_bytes to.old) (string_bytes to.new)) }
    {
        match row {
            Row::One(line) => self.append(line, to),
            Row::Sent {
                id,
                ports,
                untagged,
                plain,
                tagged,
            } => {
                let (plain, tagged) = (plain.of(arena), tagged.of(arena));
                self.append_sent(*id, *ports, *untagged, plain, tagged, to)
            }
            Row::Ctl { port, bytes } => self.append_ctl(*port, bytes.of(arena), to),
        }
    }

    /// Writes a line for each of the ports. The digits of each form are made once, where some port wants it.
    #[inline(never)]
    fn append_sent(
        &mut self,
        id: u32,
        ports: Ports,
        untagged: Ports,
        plain: &[u8],
        tagged: &[u8],
        to: &mut String,
    ) -> Result<(), NoMemory>
        ensures ok { OnOk result (string_bytes to.new ≡ string_bytes to.old ++ text (sent_lines id ports untagged plain.now tagged.now)) }
        ensures err { OnErr result (Extends (string_bytes to.old) (string_bytes to.new)) }
    {
        self.plain.forget();
        self.tagged.forget();
        let start = tx_start(id, &mut self.ids);
        for number in ports.iter() {
            if untagged.has(number) {
                self.plain.append(&start, number, plain, to)?;
            } else {
                self.tagged.append(&start, number, tagged, to)?;
            }
        }
        Ok(())
    }

    fn append_chip(
        &mut self,
        id: u32,
        changes: u32,
        applied: u32,
        class: Class,
        to: &mut String,
    ) -> Result<(), NoMemory>
        ensures ok { OnOk result (string_bytes to.new ≡ string_bytes to.old ++ line_text (Line.Chip id changes applied class)) }
        ensures err { OnErr result (string_bytes to.new ≡ string_bytes to.old) }
    {
        let mut line = LineEnd::new();
        put_class(class, &mut line);
        line.word(" ");
        line.number_near(applied, &mut self.applied);
        line.word(" ");
        line.number_near(changes, &mut self.changes);
        line.word(" at ");
        line.number_near(id, &mut self.ids);
        line.word("chip ");
        line.append_to(to)
    }

    fn append_soft(&mut self, id: u32, point: u32, to: &mut String) -> Result<(), NoMemory>
        ensures ok { OnOk result (string_bytes to.new ≡ string_bytes to.old ++ line_text (Line.Soft id point)) }
        ensures err { OnErr result (string_bytes to.new ≡ string_bytes to.old) }
    {
        let mut line = LineEnd::new();
        line.word("\n");
        line.number_near(point, &mut self.changes);
        line.word(" at ");
        line.number_near(id, &mut self.ids);
        line.word("soft ");
        line.append_to(to)
    }

    fn append_done(&mut self, step: u32, changes: u32, to: &mut String) -> Result<(), NoMemory>
        ensures ok { OnOk result (string_bytes to.new ≡ string_bytes to.old ++ line_text (Line.Done step changes)) }
        ensures err { OnErr result (string_bytes to.new ≡ string_bytes to.old) }
    {
        let mut line = LineEnd::new();
        line.word("\n");
        line.number(changes);
        line.word(" ");
        line.number_near(step, &mut self.steps);
        line.word("ok ");
        line.append_to(to)
    }

    fn append_refused(
        &mut self,
        step: u32,
        refusal: Refusal,
        to: &mut String,
    ) -> Result<(), NoMemory>
        ensures ok { OnOk result (string_bytes to.new ≡ string_bytes to.old ++ line_text (Line.Refused step refusal)) }
        ensures err { OnErr result (string_bytes to.new ≡ string_bytes to.old) }
    {
        let mut line = LineEnd::new();
        line.word("\n");
        line.number(refusal.number());
        line.word(" ");
        line.number_near(step, &mut self.steps);
        line.word("refused ");
        line.append_to(to)
    }

    fn append_tx(
        &mut self,
        id: u32,
        port: Port,
        bytes: &Bytes,
        to: &mut String,
    ) -> Result<(), NoMemory>
        ensures ok { OnOk result (string_bytes to.new ≡ string_bytes to.old ++ line_text (Line.Tx id port bytes.now)) }
        ensures err { OnErr result (Extends (string_bytes to.old) (string_bytes to.new)) }
    {
        let start = tx_start(id, &mut self.ids);
        self.plain.forget();
        self.plain
            .append(&start, port.number(), bytes.as_slice(), to)
    }

    fn append_ctl(&mut self, port: Port, bytes: &[u8], to: &mut String) -> Result<(), NoMemory>
        ensures ok { OnOk result (string_bytes to.new ≡ string_bytes to.old ++ line_text (Line.Ctl port bytes.now)) }
        ensures err { OnErr result (Extends (string_bytes to.old) (string_bytes to.new)) }
    {
        let mut start = LineEnd::new();
        start.word("ctl ");
        self.plain.forget();
        self.plain.append(&start, port.number(), bytes, to)
    }
}

/// `tx ID `, the start of the lines of a frame that leaves.
fn tx_start(id: u32, ids: &mut Digits) -> LineEnd
    ensures text { result ≡ codes "tx " ++ (decimal id ++ 32 ∷ []) }
    ensures short { length result ≤ 16 }
{
    let mut start = LineEnd::new();
    start.word(" ");
    start.number_near(id, ids);
    start.word("tx ");
    start
}

/// The word with the line feed.
fn put_class(class: Class, line: &mut LineEnd)
    requires { line.old ≡ [] }
    ensures text { line.new ≡ class_word class ++ 10 ∷ [] }
    ensures short { length line.new ≤ 8 }
{
    match class {
        Class::Drop => line.word("drop\n"),
        Class::Trap => line.word("trap\n"),
        Class::Copy => line.word("copy\n"),
        Class::Forward => line.word("forward\n"),
    }
}

/// The word with the line feed.
fn fault_text(why: FrameFault) -> &'static str
    ensures text { result.now ≡ fault_word why ++ 10 ∷ [] }
    ensures short { length result.now ≤ 9 }
{
    match why {
        FrameFault::Short => "short\n",
        FrameFault::Long => "long\n",
        FrameFault::TagShort => "tagshort\n",
    }
}

fn append_unread(id: u32, why: FrameFault, to: &mut String) -> Result<(), NoMemory>
    ensures ok { OnOk result (string_bytes to.new ≡ string_bytes to.old ++ line_text (Line.Unread id why)) }
    ensures err { OnErr result (string_bytes to.new ≡ string_bytes to.old) }
{
    let mut line = LineEnd::new();
    line.word(fault_text(why));
    line.word(" ");
    line.number(id);
    line.word("unread ");
    line.append_to(to)
}

fn append_held(id: u32, floor: u32, to: &mut String) -> Result<(), NoMemory>
    ensures ok { OnOk result (string_bytes to.new ≡ string_bytes to.old ++ line_text (Line.Held id floor)) }
    ensures err { OnErr result (string_bytes to.new ≡ string_bytes to.old) }
{
    let mut line = LineEnd::new();
    line.word("\n");
    line.number(floor);
    line.word(" ");
    line.number(id);
    line.word("held ");
    line.append_to(to)
}

fn append_overrun(id: u32, to: &mut String) -> Result<(), NoMemory>
    ensures ok { OnOk result (string_bytes to.new ≡ string_bytes to.old ++ line_text (Line.Overrun id)) }
    ensures err { OnErr result (string_bytes to.new ≡ string_bytes to.old) }
{
    let mut line = LineEnd::new();
    line.word("\n");
    line.number(id);
    line.word("overrun ");
    line.append_to(to)
}

fn append_end(
    steps: u32,
    changes: u32,
    pending: u32,
    waiting: u32,
    to: &mut String,
) -> Result<(), NoMemory>
    ensures ok { OnOk result (string_bytes to.new ≡ string_bytes to.old ++ line_text (Line.End steps changes pending waiting)) }
    ensures err { OnErr result (string_bytes to.new ≡ string_bytes to.old) }
{
    let mut line = LineEnd::new();
    line.word("\n");
    line.number(waiting);
    line.word(" ");
    line.number(pending);
    line.word(" ");
    line.number(changes);
    line.word(" ");
    line.number(steps);
    line.word("end ");
    line.append_to(to)
}

/// The line with its line feed.
pub fn write(alloc: Global, l: &Line) -> Result<Bytes, NoMemory>
    ensures { IfOk result (λ bytes. bytes ≡ line_text l.now) }
{
    let mut text = String::new(alloc);
    Writer::new(alloc).append(l, &mut text)?;
    Ok(Bytes::of(text.into_bytes()))
}
