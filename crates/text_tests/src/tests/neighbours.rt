//! Neighbour messages: written, read and followed.
ghost use Rattle.std.specs.Prelude.{◌≡◌, ◌≢◌, ℕ};
ghost use Rattle.br_model.specs.Table.Domains.{host};
ghost use Rattle.br_model.specs.declared.change.Change.TheVariants.{AddrPut};
ghost use Rattle.br_model.specs.declared.change.Kind.TheVariants.{Extern};

use super::common::{assert_bytes, assert_same, assert_text, assert_that, bytes_of, port};
use br_model::change::{Change, Kind, Update};
use br_model::domains::Domains;
use br_model::numbers::{Dom, Mac, Port, Vid};
use neigh_netlink::{
    LineFault, Neigh, Stream, Table, TakeFault, append_line, read, says_end, write,
};
use std::alloc::Global;
use std::process::Abort;

// 02:00:00:00:00:0a at port 1 and 02:00:00:00:00:0b at port 2, static, in VLAN 1.
const TEN: &[u8] =
    b"\x30\x00\x00\x00\x1c\x00\x00\x00\x00\x00\x00\x00\x00\x00\x00\x00\x07\x00\x00\x00\x02\x00\x00\x00\x40\x00\x00\x00\x0a\x00\x02\x00\x02\x00\x00\x00\x00\x0a\x00\x00\x06\x00\x05\x00\x01\x00\x00\x00";

const ELEVEN: &[u8] =
    b"\x30\x00\x00\x00\x1c\x00\x00\x00\x01\x00\x00\x00\x00\x00\x00\x00\x07\x00\x00\x00\x03\x00\x00\x00\x40\x00\x00\x00\x0a\x00\x02\x00\x02\x00\x00\x00\x00\x0b\x00\x00\x06\x00\x05\x00\x01\x00\x00\x00";

// 02:00:00:00:00:0b in VLAN 1: a chip has learned it at port 2, then has it, and then it has moved to port 3.
const LEARNED: &[u8] =
    b"\x30\x00\x00\x00\x1c\x00\x00\x00\x00\x00\x00\x00\x00\x00\x00\x00\x07\x00\x00\x00\x03\x00\x00\x00\x02\x00\x10\x00\x0a\x00\x02\x00\x02\x00\x00\x00\x00\x0b\x00\x00\x06\x00\x05\x00\x01\x00\x00\x00";

const OFFLOADED: &[u8] =
    b"\x30\x00\x00\x00\x1c\x00\x00\x00\x00\x00\x00\x00\x00\x00\x00\x00\x07\x00\x00\x00\x03\x00\x00\x00\x02\x00\x30\x00\x0a\x00\x02\x00\x02\x00\x00\x00\x00\x0b\x00\x00\x06\x00\x05\x00\x01\x00\x00\x00";

const MOVED: &[u8] =
    b"\x30\x00\x00\x00\x1c\x00\x00\x00\x01\x00\x00\x00\x00\x00\x00\x00\x07\x00\x00\x00\x04\x00\x00\x00\x02\x00\x00\x00\x0a\x00\x02\x00\x02\x00\x00\x00\x00\x0b\x00\x00\x06\x00\x05\x00\x01\x00\x00\x00";

/// 02:00:00:00 and the two bytes of the number.
fn mac(number: u16) -> Mac {
    let [high, low] = number.to_be_bytes();
    Mac::new([2, 0, 0, 0, high, low])
}

// A static entry at port 1 in VLAN 1.
fn entry(rt: &impl Abort, number: u16, ticket: u32) -> Neigh {
    Neigh {
        new: true,
        ticket,
        vid: Vid::DEFAULT,
        mac: mac(number),
        port: port(rt, 1),
        kind: Kind::Static,
        offload: false,
    }
}

fn assert_taken(
    rt: &impl Abort,
    table: &mut Table,
    entry: &Neigh,
    expected: Result<(), TakeFault>,
) {
    assert_same(rt, &table.take(entry), &expected, "whether it is taken");
}

fn message(rt: &impl Abort, bytes: &[u8]) -> Neigh {
    read(bytes).expect(rt, "a message")
}

/// The table takes what the bytes say.
fn take_message(rt: &impl Abort, table: &mut Table, bytes: &[u8]) {
    assert_taken(rt, table, &message(rt, bytes), Ok(()));
}

/// The number of an address in VLAN 1, its port, its kind, and whether a chip has it.
type Row = (u16, u8, Kind, bool);

fn assert_list(rt: &impl Abort, alloc: Global, table: &Table, rows: &[Row]) {
    let listing = table.list(alloc).expect(rt, "memory");
    assert_same(rt, &listing.len(), &rows.len(), "how many entries");
    for ((vid, address, port, kind, offload), row) in listing.as_slice().iter().zip(rows) {
        let (number, at, of_kind, has) = *row;
        assert_same(
            rt,
            &(*vid, *address),
            &(Vid::DEFAULT, mac(number)),
            "the key",
        );
        let found = (port.number(), *kind, *offload);
        assert_same(rt, &found, &(at, of_kind, has), "the entry");
    }
}

const MESSAGES: &[&[u8]] = &[ELEVEN, TEN];

const BOTH: &[Row] = &[(10, 1, Kind::Static, false), (11, 2, Kind::Static, false)];

#[test]
fn monitor_and_follow(rt: HostRuntime) {
    let ten = entry(&rt, 10, 0);
    assert!(rt; ten.is_message());
    let bytes = write(rt.alloc(), &ten).expect(&rt, "memory");
    assert_bytes(&rt, bytes.as_slice(), TEN, "what is written");
    assert_same(&rt, &read(TEN), &Some(ten), "what is read");
    let mut table = Table::make(rt.alloc()).expect(&rt, "memory");
    for bytes in MESSAGES {
        take_message(&rt, &mut table, bytes);
    }
    assert_list(&rt, rt.alloc(), &table, BOTH);
}

/// The message of the first entry with another byte at this place: its own but for these bits.
fn with_bits(rt: &impl Abort, alloc: Global, at: usize, bits: u8) -> Vec<u8> {
    let mut bytes = bytes_of(rt, alloc, TEN);
    match bytes.get_mut(at) {
        Some(place) => *place ^= bits,
        None => panic!(rt; "no place in it"),
    }
    bytes
}

/// Its last byte isn't zero.
#[test]
fn follow_refuses(rt: HostRuntime) {
    let last = with_bits(&rt, rt.alloc(), 47, 1);
    assert_same(&rt, &read(&last), &None, "another last byte");
}

/// The message's type is that of a deletion.
#[test]
fn an_entry_goes(rt: HostRuntime) {
    let deletion = message(&rt, &with_bits(&rt, rt.alloc(), 4, 1));
    let mut table = Table::make(rt.alloc()).expect(&rt, "memory");
    assert_taken(&rt, &mut table, &deletion, Err(TakeFault::Absent));
    assert_taken(&rt, &mut table, &entry(&rt, 10, 0), Ok(()));
    assert_taken(&rt, &mut table, &deletion, Ok(()));
    assert_list(&rt, rt.alloc(), &table, &[]);
}

/// Messages, and the port, the kind and the offload of the one entry then.
const MOVES: &[(&[u8], u8, Kind, bool)] = &[
    (LEARNED, 2, Kind::Extern, false),
    (OFFLOADED, 2, Kind::Extern, true),
    (MOVED, 3, Kind::Learned, false),
];

#[test]
fn an_entry_moves(rt: HostRuntime) {
    let mut table = Table::make(rt.alloc()).expect(&rt, "memory");
    for (bytes, port, kind, offload) in MOVES {
        take_message(&rt, &mut table, bytes);
        assert_list(&rt, rt.alloc(), &table, &[(11, *port, *kind, *offload)]);
    }
}

/// Where a message may differ in its highest bit: the ticket below 2^20, the ifindex, the address but its group bit, and the VLAN.
const FREE: &[usize] = &[8, 9, 20, 32, 33, 34, 35, 36, 37, 44];

#[test]
fn other_bytes_are_no_message(rt: HostRuntime) {
    for at in 0..48usize {
        let other = with_bits(&rt, rt.alloc(), at, 0x80);
        let is_message = read(&other).is_some();
        assert_same(&rt, &(at, is_message), &(at, FREE.contains(&at)), "a place");
    }
    assert_same(&rt, &read(&TEN[..47]), &None, "one byte less");
    assert_same(&rt, &read(&[]), &None, "no bytes");
}

/// There is room for 16,384 addresses, and one that is there may move.
#[test]
fn full_at_16384(rt: HostRuntime) {
    let mut table = Table::make(rt.alloc()).expect(&rt, "memory");
    for number in 0..16_384u16 {
        assert_taken(&rt, &mut table, &entry(&rt, number, 0), Ok(()));
    }
    let full = Err(TakeFault::Full);
    assert_taken(&rt, &mut table, &entry(&rt, 16_384, 0), full);
    assert_taken(&rt, &mut table, &entry(&rt, 0, 1), Ok(()));
    let listing = table.list(rt.alloc()).expect(&rt, "memory");
    assert_same(&rt, &listing.len(), &16_384, "how many entries");
}

// 02:00:00:00:00:0b in VLAN 1: a chip has learned it at this port.
fn learned(port: Port) -> Change
    ensures { (address : ℕ) × (result ≡ AddrPut 1 address port Extern) }
{
    Change::AddrPut {
        vid: Vid::DEFAULT,
        mac: mac(11),
        port,
        kind: Kind::Extern,
    }
}

// The update with this ticket.
fn update(ticket: u32, port: Port) -> Option<Update> {
    Some(Update {
        ticket,
        change: learned(port),
    })
}

fn assert_line(rt: &impl Abort, alloc: Global, message: &Neigh, line: &str) {
    let mut text = String::new(alloc);
    append_line(message, &mut text).expect(rt, "memory");
    assert_text(rt, text.as_str(), line, "the line");
}

const OFFLOAD_LINE: &str =
    "nl 300000001c00000001000000000000000700000003000000020030000a00020002000000000b00000600050001000000\n";

/// Port 2 is on the chip.
fn domains(port: Port) -> Domains
    requires { port ≢ host }
{
    let mut domains = Domains::make();
    domains.set(port, Dom::CHIP);
    domains
}

/// An entry is learned twice: the turn of the first change is no offload, and that of the second one is.
#[test]
fn superseded_update(rt: HostRuntime) {
    let two = Port::new(2).expect(&rt, "a port");
    let mut stream = Stream::make(rt.alloc(), domains(two)).expect(&rt, "memory");
    let history = [learned(two), learned(two)];
    let mut messages = Vec::new(rt.alloc());
    let followed = stream.follow(&history, 0, &mut messages);
    followed.expect(&rt, "memory");
    assert_same(&rt, &messages.len(), &2, "how many messages");
    assert_same(&rt, &messages.first().copied(), &read(LEARNED), "the first");
    let first = stream.turn(Dom::CHIP, update(0, two));
    assert_same(&rt, &first, &None, "the first turn");
    let offload = stream
        .turn(Dom::CHIP, update(1, two))
        .expect(&rt, "an offload");
    assert_line(&rt, rt.alloc(), &offload, OFFLOAD_LINE);
    assert_same(&rt, &stream.turn(Dom::CHIP, None), &None, "no update");
}

/// Lines, and what each of them is answered.
const LINES: &[(&[u8], Result<bool, LineFault>)] = &[
    (b"# nothing yet", Ok(false)),
    (b"nl 30", Err(LineFault::Message)),
    (b"nl 3", Err(LineFault::Hex)),
    (b"nl", Err(LineFault::Word)),
    (
        b"nl 300000001C00000000000000000000000700000003000000020030000A00020002000000000B00000600050001000000 ",
        Ok(false),
    ),
    (b" end", Ok(true)),
];

#[test]
fn lines_are_followed(rt: HostRuntime) {
    let mut table = Table::make(rt.alloc()).expect(&rt, "memory");
    for (line, answer) in LINES {
        assert_that(&rt, table.follow(line) == *answer, "a line");
    }
    assert_same(&rt, &says_end(b"end"), &true, "the end");
    assert_same(&rt, &says_end(b"end end"), &false, "another line");
    assert_list(&rt, rt.alloc(), &table, &[(11, 2, Kind::Extern, true)]);
}
