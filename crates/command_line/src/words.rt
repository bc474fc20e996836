//! The words of the command line.
ghost use Rattle.std.specs.Prelude.{◌≡◌, ◌<◌, ◌≤◌, [], IfOk, IfSome, map, string_bytes, option_map, codes, true, false};
ghost use Rattle.std.specs.Option.{option_and_then};
ghost use Rattle.br_model.specs.Program.Generator.{most_frames};
ghost use Rattle.clap.specs.Words.{app_of, first_of, found_of, rows_of, subcommand_rows_of};
ghost use Rattle.clap.specs.declared.builder.Command.TheViews.{out-Command as fields_of};
ghost use Rattle.mcast_querier.specs.Queries.{is_host_four, is_link_local_six};
ghost use Rattle.command_line.specs.Words.{IsWithin, addresses, addresses_of, asked, asked_with, command, host_four, link_local_six, listing, most_workers, number_count, number_count_of, subcommand, table, table_of, with_options, worker_count, worker_count_of};

use crate::asked::Asked;
use br_model::NoMemory;
use br_model::limits::MOST_FRAMES;
use br_model::listing::Listing;
use bridge_command::{address_four, address_six, number_up_to};
use clap::error::ErrorKind;
use clap::{Arg, ArgMatches, Command};
use port_workers::MOST_WORKERS;
use std::alloc::{AllocError, Global};

fn show_command<'a>(alloc: Global) -> Result<Command<'a>, NoMemory>
    ensures app { IfOk result (λ c. app_of c ≡ subcommand (codes "show") table) }
    ensures local { IfOk result (λ c. (fields_of c).has_globals ≡ false) }
{
    let table = Arg::new(alloc, "table").required(true);
    Command::new(alloc, "show").arg(table)
}

/// `querier`, with its two addresses.
fn querier_command<'a>(alloc: Global) -> Result<Command<'a>, NoMemory>
    ensures app { IfOk result (λ c. app_of c ≡ subcommand (codes "querier") addresses) }
    ensures local { IfOk result (λ c. (fields_of c).has_globals ≡ false) }
{
    let four = Arg::new(alloc, "four").required(true);
    let six = Arg::new(alloc, "six").required(true);
    Command::new(alloc, "querier").arg(four)?.arg(six)
}

/// `live`, with the number of its workers.
fn live_command<'a>(alloc: Global) -> Result<Command<'a>, NoMemory>
    ensures app { IfOk result (λ c. app_of c ≡ with_options (subcommand (codes "live") []) worker_count) }
    ensures local { IfOk result (λ c. (fields_of c).has_globals ≡ false) }
{
    let workers = Arg::new(alloc, "workers").long("workers").required(true);
    Command::new(alloc, "live").arg(workers)
}

/// `gen` or `demo`, with its two numbers.
fn generating_command<'a>(alloc: Global, name: &'a str) -> Result<Command<'a>, NoMemory>
    ensures app { IfOk result (λ c. app_of c ≡ subcommand name.now number_count) }
    ensures local { IfOk result (λ c. (fields_of c).has_globals ≡ false) }
{
    let number = Arg::new(alloc, "number").required(true);
    let count = Arg::new(alloc, "count").required(true);
    Command::new(alloc, name).arg(number)?.arg(count)
}

/// The program's command.
fn whole_command<'a>(alloc: Global) -> Result<Command<'a>, NoMemory>
    ensures app { IfOk result (λ c. app_of c ≡ command) }
{
    Command::new(alloc, "switchbr")
        .no_binary_name(true)
        .subcommand_required(true)
        .subcommand(Command::new(alloc, "replay"))?
        .subcommand(Command::new(alloc, "check"))?
        .subcommand(show_command(alloc)?)?
        .subcommand(Command::new(alloc, "monitor"))?
        .subcommand(Command::new(alloc, "audit"))?
        .subcommand(Command::new(alloc, "follow"))?
        .subcommand(querier_command(alloc)?)?
        .subcommand(live_command(alloc)?)?
        .subcommand(generating_command(alloc, "gen")?)?
        .subcommand(generating_command(alloc, "demo")?)
}

fn listing_named(word: &str) -> Option<Listing>
    ensures { result ≡ listing word.now }
{
    match word {
        "fdb" => Some(Listing::Fdb),
        "vlan" => Some(Listing::Vlan),
        "mdb" => Some(Listing::Mdb),
        _ => None,
    }
}

/// The first word given for an operand.
fn word_of<'m>(found: &'m ArgMatches, name: &str) -> Option<&'m str>
    ensures { option_map (λ s. s.now) result ≡ first_of name.now (rows_of (found_of found.now)) }
{
    found.get_str(name)
}

/// The table that `show` is given.
fn listing_from(found: &ArgMatches) -> Option<Listing>
    ensures { result ≡ table_of (rows_of (found_of found.now)) }
{
    listing_named(word_of(found, "table")?)
}

/// The generator's first state and the number of frames.
fn numbers_from(found: &ArgMatches) -> Option<(u64, u32)>
    ensures value { result ≡ number_count_of (rows_of (found_of found.now)) }
    ensures most { IfSome result (λ p. p.1 ≤ most_frames) }
{
    let number = number_up_to(word_of(found, "number")?, u64::MAX)?;
    let count = number_up_to(word_of(found, "count")?, MOST_FRAMES as u64)?;
    Some((number, count as u32))
}

/// The address of a host of version 4: neither zero nor multicast.
fn host_four(word: &str) -> Option<u32>
    ensures value { result ≡ host_four word.now }
    ensures host { IfSome result (λ n. is_host_four n ≡ true) }
{
    let address = address_four(word)?;
    if address == 0 || address >> 28 == 14 {
        None
    } else {
        Some(address)
    }
}

/// A link-local address of version 6: in fe80::/10.
fn link_local_six(word: &str) -> Option<u128>
    ensures value { result ≡ link_local_six word.now }
    ensures link_local { IfSome result (λ n. is_link_local_six n ≡ true) }
{
    let address = address_six(word)?;
    if address >> 118 == 0x3FA {
        Some(address)
    } else {
        None
    }
}

/// The addresses of a querier.
fn addresses_from(found: &ArgMatches) -> Option<(u32, u128)>
    ensures value { result ≡ addresses_of (rows_of (found_of found.now)) }
    ensures host { IfSome result (λ p. is_host_four p.0 ≡ true) }
    ensures link_local { IfSome result (λ p. is_link_local_six p.1 ≡ true) }
{
    let four = host_four(word_of(found, "four")?)?;
    let six = link_local_six(word_of(found, "six")?)?;
    Some((four, six))
}

/// How many workers `live` is given.
fn workers_from(found: &ArgMatches) -> Option<usize>
    ensures value { result ≡ worker_count_of (rows_of (found_of found.now)) }
    ensures within { IfSome result (λ n. (0 < n) × (n ≤ most_workers)) }
{
    match number_up_to(word_of(found, "workers")?, MOST_WORKERS as u64)? {
        0 => None,
        workers => Some(workers as usize),
    }
}

/// What the command of this name asks for.
fn asked_of(name: &str, found: &ArgMatches) -> Option<Asked>
    ensures value { result ≡ asked_with (name.now, rows_of (found_of found.now)) }
    ensures within { IfSome result IsWithin }
{
    match name {
        "replay" => Some(Asked::Replay),
        "check" => Some(Asked::Check),
        "show" => Some(Asked::Show(listing_from(found)?)),
        "monitor" => Some(Asked::Monitor),
        "audit" => Some(Asked::Audit),
        "follow" => Some(Asked::Follow),
        "querier" => {
            let (four, six) = addresses_from(found)?;
            Some(Asked::Querier { four, six })
        }
        "live" => Some(Asked::Live {
            workers: workers_from(found)?,
        }),
        "gen" => {
            let (number, count) = numbers_from(found)?;
            Some(Asked::Gen { number, count })
        }
        "demo" => {
            let (number, count) = numbers_from(found)?;
            Some(Asked::Demo { number, count })
        }
        _ => None,
    }
}

/// What the matches ask for.
fn asked_from(matches: &ArgMatches) -> Option<Asked>
    ensures value { result ≡ option_and_then asked_with (subcommand_rows_of matches.now) }
    ensures within { IfSome result IsWithin }
{
    let (name, found) = matches.subcommand()?;
    asked_of(name, found)
}

/// What the words after the program's name ask for, if they are in the grammar.
pub fn read_words(alloc: Global, words: &[String]) -> Result<Option<Asked>, NoMemory>
    ensures value { IfOk result (λ a. a ≡ asked (map string_bytes words.entry.now)) }
    ensures within { IfOk result (λ a. IfSome a IsWithin) }
{
    let command = whole_command(alloc)?;
    match command.try_get_matches_from(words) {
        Ok(matches) => Ok(asked_from(&matches)),
        Err(error) if error.kind() == ErrorKind::OutOfMemory => Err(AllocError),
        Err(_) => Ok(None),
    }
}
