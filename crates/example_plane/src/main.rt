//! A bridge with two ports of a chip and one of software: which ports a frame leaves and by which table, before a turn of the chip's
//! queue and after it.
#![tactic(auto)]

ghost use Rattle.std.specs.Prelude.{◌≡◌};

use br_model::bytes::Bytes;
use br_model::change::Kind;
use br_model::domains::Domains;
use br_model::numbers::{Dom, Mac, Port, Vid};
use br_model::steps::{Command, Event};
use br_model::transcript::Line;
use plane_core::{NoMemory, Plane};
use std::alloc::Global;
use std::io;
use std::sync::Wait;
use table_publish::Seat;
use transcript_lines::{Lines, Row};

/// From 02:00:00:00:00:0a to 02:00:00:00:00:0c, with nothing in it.
const FRAME: [u8; 14] = [2, 0, 0, 0, 0, 0xC, 2, 0, 0, 0, 0, 0xA, 0x88, 0xB5];

/// The command that enters the station 02:00:00:00:00:0c at the port.
fn station_at(port: Port) -> Command {
    Command::FdbAdd {
        vid: Vid::DEFAULT,
        mac: Mac::new([2, 0, 0, 0, 0, 0xC]),
        port,
        kind: Kind::Static,
    }
}

fn obey(
    alloc: Global,
    plane: &mut Plane,
    command: Command,
    lines: &mut Lines,
) -> Result<(), NoMemory>
    ensures { plane.new.board ≡ plane.old.board }
{
    plane.accept_to(alloc, &Event::Cmd(command), lines)
}

/// The frame enters at the port, and software sends what it got of it.
fn send(
    alloc: Global,
    plane: &mut Plane,
    seat: &mut Seat,
    port: Port,
    lines: &mut Lines,
) -> Result<(), NoMemory>
    requires { seat.old.board ≡ plane.old.board }
    ensures { seat.new.board ≡ plane.new.board }
{
    plane.enter_to(port, Bytes::copy_of(alloc, &FRAME)?, lines)?;
    plane.serve_to(alloc, seat, lines)
}

/// Of the three ports the first two are the chip's.
fn steps<R: Wait>(
    rt: &R,
    alloc: Global,
    plane: &mut Plane,
    seat: &mut Seat,
    ports: [Port; 3],
    lines: &mut Lines,
) -> Result<(), NoMemory>
    requires { seat.old.board ≡ plane.old.board }
{
    let [a, b, c] = ports;
    obey(alloc, plane, Command::PortUp(a), lines)?;
    obey(alloc, plane, Command::PortUp(b), lines)?;
    obey(alloc, plane, Command::PortUp(c), lines)?;
    obey(alloc, plane, station_at(c), lines)?;
    plane.publish_to(rt, alloc, lines)?;
    send(alloc, plane, seat, a, lines)?;
    plane.turn_next(Dom::CHIP, lines)?;
    send(alloc, plane, seat, a, lines)
}

fn tell(rt: &impl Print, lines: &Lines) -> io::Result<()> {
    for row in lines.parts().0 {
        match row {
            Row::One(Line::Chip { id, applied, .. }) => {
                println!(rt; "frame {id}: the chip, after {applied} of its updates")?;
            }
            Row::One(Line::Soft { id, point }) => {
                println!(rt; "frame {id}: software, after {point} changes")?;
            }
            Row::Sent { ports, .. } => {
                for port in ports.iter() {
                    println!(rt; "  leaves port {port}")?;
                }
            }
            Row::One(_) | Row::Ctl { .. } => {}
        }
    }
    Ok(())
}

fn main(rt: HostRuntime) -> io::Result<()> {
    let (a, b, c) = (Port::of::<1>(), Port::of::<2>(), Port::of::<3>());
    let alloc = rt.alloc();
    let mut domains = Domains::make();
    domains.set(a, Dom::CHIP);
    domains.set(b, Dom::CHIP);
    domains.set(c, Dom::SOFTWARE);
    let (mut plane, mut seats) = Plane::with_seats(&rt, alloc, domains, Mac::FIRST_OWN, 1)?;
    let Some(mut seat) = seats.next() else {
        unreachable!();
    };
    let mut lines = Lines::new(alloc);
    let done = steps(&rt, alloc, &mut plane, &mut seat, [a, b, c], &mut lines);
    plane.end(&rt);
    done?;
    tell(&rt, &lines)
}
