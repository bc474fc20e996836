//! The general queries that a querier on the host sends in a run, as it goes on.
ghost use Rattle.std.specs.Prelude.{◌≡◌, ◌<◌, ◌^◌, ◌++◌, [], true, false, IfOk, OnOk, IfSome, None, map, string_bytes};
ghost use Rattle.std.specs.List.{flat_map};
ghost use Rattle.br_model.specs.Data.Digits.{hex_of};
ghost use Rattle.br_model.specs.Plane.Traits.{traits};
ghost use Rattle.br_model.specs.Plane.World.{first_world};
ghost use Rattle.br_model.specs.Table.Domains.{Domains, chip_domains};
ghost use Rattle.br_model.specs.Table.Setup.{Setup};
ghost use Rattle.br_model.specs.Text.LineForms.{comes_by_line};
ghost use Rattle.mcast_querier.specs.Querier.{first_querier};
ghost use Rattle.mcast_querier.specs.Queries.{is_host_four, is_link_local_six};
ghost use Rattle.mcast_querier.specs.Runs.{query_line as query_line_of};
ghost use Rattle.plane_parts.specs.Added.{Added};
ghost use Rattle.run_world.specs.Hearing.{HearsStep, IsHost, Keeps, coming_by, moment_after, queries_by, ticked_by};
ghost use Rattle.run_world.specs.Worlds.{Tells};
ghost use Rattle.run_world.specs.Voices.{HeardBy, HostIn, SaysBy, lines_of};
ghost use Rattle.run_world.specs.declared.voice.Voice.TheVariants as Voice;

use crate::NoMemory;
use crate::addresses::Addresses;
use crate::entered::Entered;
use crate::world::World;
use br_model::bytes::Bytes;
use br_model::numbers::Mac;
use br_model::steps::Step;
use mcast_querier::Querier;
use std::alloc::Global;
use std::mem;
use std::sync::Wait;
use transcript_lines::Lines;

/// A querier on the host, and what it has to know of the run.
#[derive(Drop)]
pub(crate) struct Host {
    querier: Querier,
    entered: Entered,
    // The last moment of the run.
    now: u64,
}

/// Says the queries of a run.
#[derive(Drop)]
pub struct Asking {
    addresses: Addresses,
    // From the first step on.
    host: Option<Host>,
    // The lines of the queries.
    text: String,
}

/// The moment that the step names, if it is one.
fn moment_named(step: &Step) -> Option<u64>
    ensures { result ≡ (traits step.now).moment }
{
    match step {
        Step::Now(moment) => Some(*moment),
        _ => None,
    }
}

/// The moment that a step names, if these lines say that it was done.
fn coming(named: Option<u64>, lines: &Lines) -> Option<u64>
    ensures { result ≡ coming_by named lines.now.lines }
{
    match named {
        Some(moment) if lines.any_done() => Some(moment),
        Some(_) | None => None,
    }
}

/// The last moment of the run then.
fn later(comes: Option<u64>, now: u64) -> u64
    ensures { result ≡ moment_after comes now }
{
    match comes {
        Some(moment) => moment,
        None => now,
    }
}

fn digits_of(alloc: Global, bytes: &[u8]) -> Result<String, NoMemory>
    ensures { IfOk result (λ text. string_bytes text ≡ hex_of bytes.now) }
{
    hex::encode(alloc, bytes)
}

/// Writes a query's line behind the text.
fn append_query(alloc: Global, moment: u64, query: &[u8], text: &mut String) -> Result<(), NoMemory>
    ensures { OnOk result (string_bytes text.new ≡ string_bytes text.old ++ query_line_of (moment, query.now)) }
{
    let digits = digits_of(alloc, query)?;
    write!(text, "query {moment} {digits}\n")
}

/// The same of each of these queries.
fn append_queries(
    alloc: Global,
    moment: u64,
    queries: &[Bytes],
    text: &mut String,
) -> Result<(), NoMemory>
    ensures { OnOk result (string_bytes text.new ≡ string_bytes text.old ++ flat_map query_line_of (map (λ query. (moment, query)) queries.now)) }
{
    for query in queries {
        append_query(alloc, moment, query.as_slice(), text)?;
    }
    Ok(())
}

/// The moment comes to the querier, where one comes. The lines of its queries are put behind the text.
fn pass(
    alloc: Global,
    moment: Option<u64>,
    querier: &mut Querier,
    text: &mut String,
) -> Result<(), NoMemory>
    requires { IfSome moment (λ n. n < 2 ^ 53) }
    ensures querier { OnOk result (querier.new ≡ ticked_by querier.old moment) }
    ensures text { OnOk result (string_bytes text.new ≡ string_bytes text.old ++ flat_map query_line_of (queries_by querier.old moment)) }
{
    let Some(moment) = moment else {
        return Ok(());
    };
    let queries = querier.tick(alloc, moment)?;
    append_queries(alloc, moment, queries.as_slice(), text)
}

impl Host {
    /// Before the first step of the bridge with this address.
    fn make(alloc: Global, own: Mac, addresses: &Addresses) -> Host
        ensures querier { result.querier ≡ first_querier own addresses.now.four addresses.now.six }
        ensures entered { Keeps result.entered [] }
        ensures now { result.now ≡ 0 }
    {
        Host {
            querier: Querier::make(own, addresses.four, addresses.six),
            entered: Entered::none(alloc),
            now: 0,
        }
    }

    /// Does a step in the world in which it is the host, and puts the lines of its queries behind the text. The step's lines are added.
    fn step<R: Wait>(
        &mut self,
        rt: &R,
        alloc: Global,
        world: &mut World,
        step: Step,
        lines: &mut Lines,
        text: &mut String,
    ) -> Result<(), NoMemory>
        requires by_line { comes_by_line false (chip_domains world.old.setup.domains) step ≡ true }
        requires empty { lines.old.lines ≡ [] }
        requires here { IsHost self.old world.old }
        ensures tells { OnOk result (Added (Tells world.old step world.new) lines.old.lines lines.new.lines) }
        ensures here { OnOk result (IsHost self.new world.new) }
        ensures hears { OnOk result (HearsStep self.old (string_bytes text.old) world.old step self.new (string_bytes text.new)) }
    {
        let named = moment_named(&step);
        self.entered.enter(alloc, &step)?;
        world.step(rt, alloc, step, lines)?;
        let comes = coming(named, lines);
        self.now = later(comes, self.now);
        self.entered.hear_all(lines, self.now, &mut self.querier);
        pass(alloc, comes, &mut self.querier, text)
    }
}

impl Asking {
    /// At these addresses. It has said nothing.
    pub fn new(alloc: Global, four: u32, six: u128) -> Asking
        requires four { is_host_four four ≡ true }
        requires six { is_link_local_six six ≡ true }
        ensures four { result.addresses.four ≡ four }
        ensures six { result.addresses.six ≡ six }
        ensures host { result.host ≡ None }
        ensures text { string_bytes result.text ≡ [] }
    {
        Asking {
            addresses: Addresses { four, six },
            host: None,
            text: String::new(alloc),
        }
    }

    /// Before the first step of a run of a bridge with this address.
    pub(crate) fn begin(&mut self, alloc: Global, own: Mac)
        ensures here { (domains : Domains) → HostIn self.new.host (first_world (record { domains = domains; own = own })) }
        ensures heard { (setup : Setup) → setup.own ≡ own → HeardBy self.new.host self.new.addresses.four self.new.addresses.six setup [] }
        ensures text { string_bytes self.new.text ≡ string_bytes self.old.text }
        ensures same { lines_of (Voice.Querier self.new) ≡ lines_of (Voice.Querier self.old) }
    {
        self.host = Some(Host::make(alloc, own, &self.addresses));
    }

    /// Does a step in the world of the run. Its lines are added.
    #[inline(never)]
    pub(crate) fn step<R: Wait>(
        &mut self,
        rt: &R,
        alloc: Global,
        world: &mut World,
        step: Step,
        lines: &mut Lines,
    ) -> Result<(), NoMemory>
        requires by_line { comes_by_line false (chip_domains world.old.setup.domains) step ≡ true }
        requires empty { lines.old.lines ≡ [] }
        requires here { HostIn self.old.host world.old }
        ensures tells { OnOk result (Added (Tells world.old step world.new) lines.old.lines lines.new.lines) }
        ensures here { OnOk result (HostIn self.new.host world.new) }
        ensures same { OnOk result (lines_of (Voice.Querier self.new) ≡ lines_of (Voice.Querier self.old)) }
        ensures says { OnOk result (SaysBy (Voice.Querier self.old) world.old step (Voice.Querier self.new)) }
    {
        let Some(host) = &mut self.host else {
            unreachable!();
        };
        host.step(rt, alloc, world, step, lines, &mut self.text)
    }

    /// Gives the text away.
    pub(crate) fn take_text(&mut self, alloc: Global) -> String
        ensures { string_bytes result ≡ string_bytes self.old.text }
    {
        mem::replace(&mut self.text, String::new(alloc))
    }
}
