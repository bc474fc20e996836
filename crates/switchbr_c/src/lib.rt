//! What C calls: texts in memory, whole or line by line. `c/switchbr.h` declares these functions and says what they do; there a `Global` is
//! no argument.
#![tactic(auto)]

ghost use Rattle.std.specs.Prelude.{◌≡◌, ◌≤◌, ◌∷◌, [], ℕ, IfOk, List, None, Some, length, string_bytes, true};
ghost use Rattle.br_model.specs.Program.Generator.{made, most_frames};
ghost use Rattle.br_model.specs.Program.Listings.{listed};
ghost use Rattle.br_model.specs.Program.Runs.{told};
ghost use Rattle.br_model.specs.Table.Limits.{most_bytes};
ghost use Rattle.br_model.specs.Text.Scenario.{scenario as scenario_of};
ghost use Rattle.neigh_netlink.specs.Follow.{followed, follows};
ghost use Rattle.whole_texts.specs.Messages.{lines_end_well};
ghost use Rattle.whole_texts.specs.Sessions.{IsSound};
ghost use Rattle.whole_texts.specs.Texts.{ends_well};
ghost use Rattle.switchbr_c.specs.Asking.{AsksTable, Shows, listing_of as listing_numbered};
ghost use Rattle.switchbr_c.specs.Calls.{Checks, Tells, is_of};
ghost use Rattle.switchbr_c.specs.Sessions.{Ends, GivesKept, GivesText, MayRefuse, MaySettle, Opens, PassesLine, PassesSection, Refuses, Settles, fine_at};
ghost use Rattle.switchbr_c.specs.Trials.{TriesLine, status_of as number_of};

mod handle;
mod loose;
#[cfg(test)]
mod tests;

use br_model::NoMemory;
use br_model::limits::{MOST_BYTES, MOST_FRAMES};
use br_model::listing::Listing;
use handle::Handle;
use scenario_generator::generate;
use std::alloc::Global;
use transcript_check::{Answer, CheckFault, check};
use whole_texts::{Session, SessionFault, follow, replay, show};

// The numbers of the program's statuses, and two more.
const DONE: u8 = 0;

const DIFFERS: u8 = 1;

const USAGE: u8 = 2;

const BAD_LINE: u8 = 3;

const NO_MEMORY: u8 = 6;

const TOO_LONG: u8 = 7;

const NO_ROOM: u8 = 16;

const CLOSED: u8 = 17;

/// The number of this interface.
#[unsafe(no_mangle)]
pub extern "C" fn switchbr_abi() -> u32
    ensures { result ≡ 3 }
{
    3
}

/// Gives a text to the room, where it fits, and tells its length.
fn give(text: &[u8], well: bool, out: &mut [u8], len: &mut usize) -> u8
    ensures tells { (size most : ℕ) → size ≤ most → Tells well text.now size most out.old out.new len.new result }
    ensures others { is_of (0 ∷ 3 ∷ 16 ∷ []) result ≡ true }
{
    *len = text.len();
    if text.len() > out.len() {
        return NO_ROOM;
    }
    out[..text.len()].copy_from_slice(text);
    if well { DONE } else { BAD_LINE }
}

/// The transcript of a scenario.
#[unsafe(no_mangle)]
pub extern "C" fn switchbr_replay(
    alloc: Global,
    scenario: &[u8],
    out: &mut [u8],
    len: &mut usize,
) -> u8
    ensures { Tells (ends_well (scenario_of scenario.now).ending) (told scenario.now) (length scenario.now) most_bytes
        out.old out.new len.new result }
{
    *len = 0;
    if scenario.len() > MOST_BYTES as usize {
        return TOO_LONG;
    }
    match replay(alloc, scenario) {
        Ok(told) => give(told.text.as_bytes(), told.well, out, len),
        Err(_) => NO_MEMORY,
    }
}

/// The table of lines of messages.
#[unsafe(no_mangle)]
pub extern "C" fn switchbr_follow(
    alloc: Global,
    messages: &[u8],
    out: &mut [u8],
    len: &mut usize,
) -> u8
    ensures { Tells (lines_end_well (follows messages.now).ending) (followed messages.now) (length messages.now) most_bytes
        out.old out.new len.new result }
{
    *len = 0;
    if messages.len() > MOST_BYTES as usize {
        return TOO_LONG;
    }
    match follow(alloc, messages) {
        Ok(told) => give(told.text.as_bytes(), told.well, out, len),
        Err(_) => NO_MEMORY,
    }
}

/// The table with this number: the forwarding database, the members of VLANs, those of groups.
fn listing_of(table: u8) -> Option<Listing>
    ensures { result ≡ listing_numbered table }
{
    match table {
        0 => Some(Listing::Fdb),
        1 => Some(Listing::Vlan),
        2 => Some(Listing::Mdb),
        _ => None,
    }
}

/// The listing of a table at the end of a scenario.
fn give_listing(
    alloc: Global,
    listing: Listing,
    scenario: &[u8],
    out: &mut [u8],
    len: &mut usize,
) -> u8
    ensures { Tells (ends_well (scenario_of scenario.now).ending) (listed listing scenario.now) (length scenario.now) most_bytes
        out.old out.new len.new result }
{
    *len = 0;
    if scenario.len() > MOST_BYTES as usize {
        return TOO_LONG;
    }
    match show(alloc, listing, scenario) {
        Ok(told) => give(told.text.as_bytes(), told.well, out, len),
        Err(_) => NO_MEMORY,
    }
}

/// A table at the end of a scenario.
#[unsafe(no_mangle)]
pub extern "C" fn switchbr_show(
    alloc: Global,
    table: u8,
    scenario: &[u8],
    out: &mut [u8],
    len: &mut usize,
) -> u8
    ensures { Shows (listing_numbered table) scenario.now out.old out.new len.new result }
{
    *len = 0;
    let Some(listing) = listing_of(table) else {
        return USAGE;
    };
    give_listing(alloc, listing, scenario, out, len)
}

/// The generated scenario of so many frames, from this number on.
#[unsafe(no_mangle)]
pub extern "C" fn switchbr_generate(
    alloc: Global,
    number: u64,
    count: u32,
    out: &mut [u8],
    len: &mut usize,
) -> u8
    ensures { Tells true (made number count) count most_frames out.old out.new len.new result }
{
    *len = 0;
    if count > MOST_FRAMES {
        return TOO_LONG;
    }
    match generate(alloc, number, count) {
        Ok(bytes) => give(bytes.as_slice(), true, out, len),
        Err(_) => NO_MEMORY,
    }
}

/// Whether a transcript is what is told of a scenario.
#[unsafe(no_mangle)]
pub extern "C" fn switchbr_check(
    alloc: Global,
    scenario: &[u8],
    transcript: &[u8],
    line: &mut u32,
) -> u8
    ensures { Checks scenario.now transcript.now line.new result }
{
    *line = 0;
    if scenario.len() > MOST_BYTES as usize {
        return TOO_LONG;
    }
    if transcript.len() >= MOST_BYTES as usize {
        return TOO_LONG;
    }
    match check(alloc, scenario, transcript) {
        Ok(Answer::Yes) => DONE,
        Ok(Answer::No { line: at, .. }) => {
            *line = at;
            DIFFERS
        }
        Err(CheckFault::BadLine { line: at, .. }) => {
            *line = at;
            BAD_LINE
        }
        Err(CheckFault::NoMemory) => NO_MEMORY,
    }
}

/// Opens a session before the first line of a scenario. One that was open there ends.
#[unsafe(no_mangle)]
pub extern "C" fn switchbr_open(alloc: Global, session: &mut Handle) -> u8
    ensures { Opens session.new.value result }
{
    let _ = session.take(alloc);
    let Ok(opened) = Session::open(alloc) else {
        return NO_MEMORY;
    };
    let Ok(opened) = Box::new(alloc, opened) else {
        return NO_MEMORY;
    };
    session.put(alloc, opened);
    DONE
}

/// Whether no bad line has ended the scenario.
fn is_fine(ended: Option<bool>) -> bool
    ensures { result ≡ fine_at ended }
{
    match ended {
        Some(well) => well,
        None => true,
    }
}

/// Gives what is told to the room, where it fits, and tells its length.
fn tell(session: &mut Session, out: &mut [u8], len: &mut usize) -> u8
    requires { IsSound session.old }
    ensures sound { IsSound session.new }
    ensures gives { GivesKept session.old out.old out.new len.new (Some session.new) result }
{
    let fine = is_fine(session.ended());
    let status = give(session.told(), fine, out, len);
    if status == NO_ROOM {
        return status;
    }
    session.let_go();
    status
}

/// Puts a session back that has refused so.
fn refuse(alloc: Global, handle: &mut Handle, session: Box<Session>, fault: SessionFault) -> u8
    requires none { handle.old.value ≡ None }
    requires sound { MayRefuse session.value fault }
    ensures { Refuses session.value fault handle.new.value result }
{
    match fault {
        SessionFault::Ended => {
            handle.put(alloc, session);
            CLOSED
        }
        SessionFault::Misplaced => {
            handle.put(alloc, session);
            USAGE
        }
        SessionFault::TooLong => {
            handle.put(alloc, session);
            TOO_LONG
        }
        SessionFault::NoMemory => NO_MEMORY,
    }
}

/// Puts a session back that has answered so, and gives what is told.
fn settle(
    alloc: Global,
    handle: &mut Handle,
    mut session: Box<Session>,
    answer: Result<(), SessionFault>,
    out: &mut [u8],
    len: &mut usize,
) -> u8
    requires none { handle.old.value ≡ None }
    requires sound { MaySettle session.value answer }
    ensures { Settles session.value answer out.old out.new len.new handle.new.value result }
{
    *len = 0;
    match answer {
        Ok(()) => {
            let status = tell(&mut session, out, len);
            handle.put(alloc, session);
            status
        }
        Err(fault) => refuse(alloc, handle, session, fault),
    }
}

/// Gives a session its next line, without the line feed.
#[unsafe(no_mangle)]
pub extern "C" fn switchbr_line(
    alloc: Global,
    session: &mut Handle,
    line: &[u8],
    out: &mut [u8],
    len: &mut usize,
) -> u8
    ensures { PassesLine session.old.value line.now out.old out.new len.new session.new.value result }
{
    *len = 0;
    let Some(mut taken) = session.take(alloc) else {
        return CLOSED;
    };
    let answer = taken.line(alloc, line);
    settle(alloc, session, taken, answer, out, len)
}

fn status_of(fault: SessionFault) -> u8
    ensures { result ≡ number_of fault }
{
    match fault {
        SessionFault::Ended => CLOSED,
        SessionFault::Misplaced => USAGE,
        SessionFault::TooLong => TOO_LONG,
        SessionFault::NoMemory => NO_MEMORY,
    }
}

/// Tells what would become of a session's next line, which isn't taken.
#[unsafe(no_mangle)]
pub extern "C" fn switchbr_try(
    alloc: Global,
    session: &mut Handle,
    line: &[u8],
    out: &mut [u8],
    len: &mut usize,
) -> u8
    ensures { TriesLine session.old.value line.now out.old out.new len.new session.new.value result }
{
    *len = 0;
    let Some(tried) = session.take(alloc) else {
        return CLOSED;
    };
    let answer = tried.try_line(alloc, line);
    session.put(alloc, tried);
    match answer {
        Ok(told) => give(told.text.as_bytes(), told.well, out, len),
        Err(fault) => status_of(fault),
    }
}

/// Gives an answer to the room, where there is memory for it.
fn give_answer(answer: Result<String, NoMemory>, out: &mut [u8], len: &mut usize) -> u8
    ensures tells { (text : List ℕ) → IfOk answer (λ t. string_bytes t ≡ text) → Tells true text 0 0 out.old out.new len.new result }
    ensures others { is_of (0 ∷ 6 ∷ 16 ∷ []) result ≡ true }
{
    *len = 0;
    match answer {
        Ok(text) => give(text.as_bytes(), true, out, len),
        Err(_) => NO_MEMORY,
    }
}

/// A table of what a session has taken.
#[unsafe(no_mangle)]
pub extern "C" fn switchbr_shown(
    alloc: Global,
    session: &mut Handle,
    table: u8,
    out: &mut [u8],
    len: &mut usize,
) -> u8
    ensures { AsksTable session.old.value (listing_numbered table) out.old out.new len.new session.new.value result }
{
    *len = 0;
    let Some(listing) = listing_of(table) else {
        return USAGE;
    };
    let Some(asked) = session.take(alloc) else {
        return CLOSED;
    };
    let answer = asked.shown(alloc, listing);
    session.put(alloc, asked);
    give_answer(answer, out, len)
}

/// Gives a session the section of the line before.
#[unsafe(no_mangle)]
pub extern "C" fn switchbr_section(
    alloc: Global,
    session: &mut Handle,
    section: &[u8],
    out: &mut [u8],
    len: &mut usize,
) -> u8
    ensures { PassesSection session.old.value section.now out.old out.new len.new session.new.value result }
{
    *len = 0;
    let Some(mut taken) = session.take(alloc) else {
        return CLOSED;
    };
    let answer = taken.section(alloc, section);
    settle(alloc, session, taken, answer, out, len)
}

/// Gives what is told and wasn't given.
#[unsafe(no_mangle)]
pub extern "C" fn switchbr_text(
    alloc: Global,
    session: &mut Handle,
    out: &mut [u8],
    len: &mut usize,
) -> u8
    ensures { GivesText session.old.value out.old out.new len.new session.new.value result }
{
    *len = 0;
    let Some(mut taken) = session.take(alloc) else {
        return CLOSED;
    };
    let status = tell(&mut taken, out, len);
    session.put(alloc, taken);
    status
}

/// Ends a session, wherever it stands.
#[unsafe(no_mangle)]
pub extern "C" fn switchbr_end(alloc: Global, session: &mut Handle) -> u8
    ensures { Ends session.old.value session.new.value result }
{
    let Some(taken) = session.take(alloc) else {
        return CLOSED;
    };
    drop(taken);
    DONE
}
