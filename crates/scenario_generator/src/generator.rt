//! The scenario that `gen` writes and `demo` runs.
ghost use Rattle.std.specs.Prelude.{◌≡◌, ◌+◌, ◌*◌, ◌%◌, ◌==◌, ◌<◌, ◌≤◌, if◌then◌else◌, [], ◌∷◌, ◌++◌, length, codes, decimal, IfOk};
ghost use Rattle.std.specs.String.{string_bytes, string_len, string_capacity};
ghost use Rattle.br_model.specs.declared.domains.Edition.TheVariants.{One};
ghost use Rattle.br_model.specs.Table.Domains.{first_chip_domain, last_port};
ghost use Rattle.br_model.specs.Data.Digits.{hex_of};
ghost use Rattle.br_model.specs.Program.Generator.{drawn as drawn_of, number_of, station as station_of, destination as destination_of, frame as frame_of, each, most_frames, made, steps as all_steps, ports, first_steps as steps_at_first};
ghost use Rattle.br_model.specs.Text.Roster.{domains_of};
ghost use Rattle.scenario_generator.specs.Generating.{first, after_frame, next_steps, steps_left, lines_of, opening_text, text_left};

use br_model::NoMemory;
use br_model::bytes::Bytes;
use br_model::domains::Domains;
use br_model::numbers::{Dom, Port};
use br_model::steps::{Command, Step};
use itoa::Buffer;
use std::alloc::Global;
use std::marker::Model;

/// The lines before the first frame.
const OPENING: &str = "\
scenario 1
port 1 g1 chip 1
port 2 g2 chip 1
port 3 g3 chip 1
port 4 g4 chip 1
port 5 g5 soft
port 6 g6 soft
cmd port up g1
cmd port up g2
cmd port up g3
cmd port up g4
cmd port up g5
cmd port up g6
publish
";

/// The bytes of the lines before the first frame.
pub const OPENING_BYTES: usize = 207;

/// The bytes of a frame's lines, at most.
pub const MOST_FRAME_BYTES: usize = 83;

/// The bytes of the last line.
pub const END_BYTES: usize = 4;

/// The frames of a generated scenario that are left.
#[derive(Drop)]
pub struct Generator {
    x: u64,
    i: u32,
    left: u32,
}

impl Model for Generator {
    ghost use Rattle.std.specs.Prelude.{◌+◌, ◌≤◌};
    ghost use Rattle.br_model.specs.Program.Generator.{most_frames};
    ghost use Rattle.scenario_generator.specs.Generating.{At};

    ghost Value = { At };

    ghost view = { λ g. record { x = g.x; i = g.i; left = g.left } };

    ghost invariant = { λ g. g.i + g.left ≤ most_frames + 1 };
}

impl Generator {
    /// Before the first of so many frames. `x` is the NUMBER of `gen`, the first state.
    pub fn new(x: u64, count: u32) -> Generator
        requires { count ≤ most_frames }
        ensures first { result ≡ first x count }
        ensures text { opening_text ++ text_left result ≡ made x count }
        ensures steps { steps_at_first ++ steps_left result ≡ all_steps x count }
    {
        Generator {
            x,
            i: 1,
            left: count,
        }
    }

    /// How many frames are left.
    pub fn left(&self) -> u32
        ensures { result ≡ self.now.left }
    {
        self.left
    }

    /// The number that the next frame comes from.
    fn number(&self) -> u32
        ensures { result ≡ number_of (drawn_of self.now.x) }
    {
        (drawn(self.x) >> 33) as u32
    }

    fn go_on(&mut self)
        requires { 0 < self.old.left }
        ensures { self.new ≡ after_frame self.old }
    {
        self.x = drawn(self.x);
        self.i += 1;
        self.left -= 1;
    }

    /// The place of the next frame, and the number that it comes from. The frames go on.
    pub(crate) fn draw(&mut self) -> (u32, u32)
        requires { 0 < self.old.left }
        ensures drawn { result ≡ (self.old.i, number_of (drawn_of self.old.x)) }
        ensures next { self.new ≡ after_frame self.old }
        ensures rest { steps_left self.old ≡ next_steps self.old ++ steps_left self.new }
        ensures few { self.old.i ≤ most_frames }
    {
        let i = self.i;
        let n = self.number();
        self.go_on();
        (i, n)
    }

    /// Writes the lines of the next frame, for which there is room.
    pub fn append_frame(&mut self, text: &mut String)
        requires left { 0 < self.old.left }
        requires room { string_len text.old + MOST_FRAME_BYTES ≤ string_capacity text.old }
        ensures text { string_bytes text.new ≡ string_bytes text.old ++ lines_of (next_steps self.old) }
        ensures next { self.new ≡ after_frame self.old }
        ensures rest { text_left self.old ≡ lines_of (next_steps self.old) ++ text_left self.new }
        ensures len { string_len text.new ≤ string_len text.old + MOST_FRAME_BYTES }
        ensures capacity { string_capacity text.old ≤ string_capacity text.new }
    {
        append_entry(self.number(), text);
        append_others(self.i, text);
        self.go_on();
    }

    /// Writes the last line, for which there is room, behind all frames.
    pub fn append_end(&self, text: &mut String)
        requires last { self.now.left ≡ 0 }
        requires room { string_len text.old + END_BYTES ≤ string_capacity text.old }
        ensures text { string_bytes text.new ≡ string_bytes text.old ++ text_left self.now }
        ensures len { string_len text.new ≡ string_len text.old + END_BYTES }
        ensures capacity { string_capacity text.old ≤ string_capacity text.new }
    {
        put(text, "end\n");
    }
}

/// The generator's next state.
fn drawn(x: u64) -> u64
    ensures { result ≡ drawn_of x }
{
    x.wrapping_mul(6_364_136_223_846_793_005)
        .wrapping_add(1_442_695_040_888_963_407)
}

/// Writes text for which there is room.
fn put(text: &mut String, part: &str)
    requires { string_len text.old + length part.now ≤ string_capacity text.old }
    ensures text { string_bytes text.new ≡ string_bytes text.old ++ part.now }
    ensures len { string_len text.new ≡ string_len text.old + length part.now }
    ensures capacity { string_capacity text.old ≤ string_capacity text.new }
{
    match text.push_str(part) {
        Ok(()) => {}
        Err(_) => unreachable!(),
    }
}

/// Writes the lines before the first frame, for which there is room.
pub fn append_opening(text: &mut String)
    requires { string_len text.old + OPENING_BYTES ≤ string_capacity text.old }
    ensures text { string_bytes text.new ≡ string_bytes text.old ++ opening_text }
    ensures len { string_len text.new ≡ string_len text.old + OPENING_BYTES }
    ensures capacity { string_capacity text.old ≤ string_capacity text.new }
{
    put(text, OPENING);
}

/// The front of the line by which a frame enters at one of six ports.
fn front(p: u32) -> &'static str
    requires { p < 6 }
    ensures text { result.now ≡ codes "rx " ++ (decimal (p + 1) ++ 32 ∷ []) }
    ensures len { length result.now ≡ 5 }
{
    match p {
        0 => "rx 1 ",
        1 => "rx 2 ",
        2 => "rx 3 ",
        3 => "rx 4 ",
        4 => "rx 5 ",
        _ => "rx 6 ",
    }
}

/// The digits of a station's address.
fn station(s: u32) -> &'static str
    requires { s < 8 }
    ensures text { result.now ≡ hex_of (station_of s) }
    ensures len { length result.now ≡ 12 }
{
    match s {
        0 => "020000000010",
        1 => "020000000011",
        2 => "020000000012",
        3 => "020000000013",
        4 => "020000000014",
        5 => "020000000015",
        6 => "020000000016",
        _ => "020000000017",
    }
}

/// The digits of the address to which a frame goes.
fn destination(d: u32) -> &'static str
    requires { d < 9 }
    ensures text { result.now ≡ hex_of (destination_of d) }
    ensures len { length result.now ≡ 12 }
{
    if d == 8 { "ffffffffffff" } else { station(d) }
}

/// Writes the lines by which the frame of this number enters and is served.
fn append_entry(n: u32, text: &mut String)
    requires { string_len text.old + 44 ≤ string_capacity text.old }
    ensures text { string_bytes text.new ≡ string_bytes text.old ++ lines_of (Step.Rx (n % 6 + 1) (frame_of n) ∷ Step.Serve ∷ []) }
    ensures len { string_len text.new ≡ string_len text.old + 44 }
    ensures capacity { string_capacity text.old ≤ string_capacity text.new }
{
    put(text, front(n % 6));
    put(text, destination(n / 48 % 9));
    put(text, station(n / 6 % 8));
    put(text, "88b50000\nserve\n");
}

/// Writes a line where i is a multiple.
fn append_each(d: u32, i: u32, line: &str, text: &mut String)
    requires divisor { 0 < d }
    requires room { string_len text.old + length line.now ≤ string_capacity text.old }
    ensures text { string_bytes text.new ≡ string_bytes text.old ++ (if i % d == 0 then line.now else []) }
    ensures len { string_len text.new ≤ string_len text.old + length line.now }
    ensures capacity { string_capacity text.old ≤ string_capacity text.new }
{
    if i % d == 0 {
        put(text, line);
    }
}

/// Writes the line of the moment that comes with frame i, if one does.
fn append_moment(i: u32, text: &mut String)
    requires few { i ≤ most_frames }
    requires room { string_len text.old + 15 ≤ string_capacity text.old }
    ensures text { string_bytes text.new ≡ string_bytes text.old ++ lines_of (each 64 i (Step.Now (1000 * i))) }
    ensures len { string_len text.new ≤ string_len text.old + 15 }
    ensures capacity { string_capacity text.old ≤ string_capacity text.new }
{
    if i % 64 == 0 {
        let mut digits = Buffer::new();
        put(text, "now ");
        put(text, digits.format(1000 * i));
        put(text, "\n");
    }
}

/// Writes the lines of what else happens with frame i.
fn append_others(i: u32, text: &mut String)
    requires few { i ≤ most_frames }
    requires room { string_len text.old + 39 ≤ string_capacity text.old }
    ensures text { string_bytes text.new ≡ string_bytes text.old ++ lines_of (each 3 i (Step.Report first_chip_domain)
        ++ (each 5 i (Step.Turn first_chip_domain) ++ (each 7 i Step.Publish ++ each 64 i (Step.Now (1000 * i))))) }
    ensures len { string_len text.new ≤ string_len text.old + 39 }
    ensures capacity { string_capacity text.old ≤ string_capacity text.new }
{
    append_each(3, i, "report 1\n", text);
    append_each(5, i, "turn 1\n", text);
    append_each(7, i, "publish\n", text);
    append_moment(i, text);
}

/// The bytes of the frame of this number.
pub(crate) fn frame(n: u32) -> [u8; 16]
    ensures { result ≡ frame_of n }
{
    let from = 0x10 + (n / 6 % 8) as u8;
    match (n / 48 % 9) as u8 {
        8 => [
            0xFF, 0xFF, 0xFF, 0xFF, 0xFF, 0xFF, 2, 0, 0, 0, 0, from, 0x88, 0xB5, 0, 0,
        ],
        s => [
            2,
            0,
            0,
            0,
            0,
            0x10 + s,
            2,
            0,
            0,
            0,
            0,
            from,
            0x88,
            0xB5,
            0,
            0,
        ],
    }
}

pub(crate) fn port(number: u8) -> Port
    requires { number ≤ last_port }
    ensures { result ≡ number }
{
    match Port::new(number) {
        Some(port) => port,
        None => unreachable!(),
    }
}

fn up(number: u8) -> Step
    requires { number ≤ last_port }
    ensures { result ≡ Step.Cmd (Command.PortUp number) }
{
    Step::Cmd(Command::PortUp(port(number)))
}

/// The steps before the first frame.
pub fn first_steps(alloc: Global) -> Result<Vec<Step>, NoMemory>
    ensures { IfOk result (λ steps. steps.items ≡ steps_at_first) }
{
    Ok(vec![in alloc; up(1), up(2), up(3), up(4), up(5), up(6), Step::Publish]?)
}

/// The domains of the ports of a generated scenario, and of the host.
pub fn domains() -> Domains
    ensures { result ≡ domains_of One ports }
{
    let mut domains = Domains::make();
    domains.set(port(1), Dom::CHIP);
    domains.set(port(2), Dom::CHIP);
    domains.set(port(3), Dom::CHIP);
    domains.set(port(4), Dom::CHIP);
    domains.set(port(5), Dom::SOFTWARE);
    domains.set(port(6), Dom::SOFTWARE);
    domains
}

/// The bytes of the scenario of so many frames, from this state on.
pub fn generate(alloc: Global, x: u64, count: u32) -> Result<Bytes, NoMemory>
    requires { count ≤ most_frames }
    ensures { IfOk result (λ bytes. bytes ≡ made x count) }
{
    let most = OPENING_BYTES + MOST_FRAME_BYTES * count as usize + END_BYTES;
    let mut text = String::with_capacity(alloc, most)?;
    let mut generator = Generator::new(x, count);
    append_opening(&mut text);
    for _ in 0..count {
        generator.append_frame(&mut text);
    }
    generator.append_end(&mut text);
    Ok(Bytes::of(text.into_bytes()))
}
