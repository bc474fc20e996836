//! The tables of a run, as text.
ghost use Rattle.std.specs.Prelude.{◌≡◌, ◌≤◌, IfOk, length, string_bytes};
ghost use Rattle.br_model.specs.Program.Listings.{listed, listing_text};
ghost use Rattle.br_model.specs.Table.Limits.{most_bytes};
ghost use Rattle.br_model.specs.Table.Table.{table};
ghost use Rattle.whole_texts.specs.Tables.{history_of};
ghost use Rattle.whole_texts.specs.Texts.{TellsWhole};

use crate::NoMemory;
use crate::lone::Lone;
use crate::replaying::Told;
use crate::running::run;
use crate::trying::bad_text;
use br_model::listing::Listing;
use br_model::plain::table::Table;
use bridge_command::Roster;
use scenario_reader::{Last, read_scenario};
use scenario_text::list;
use std::alloc::Global;

/// The listing of the table of the whole history.
pub(crate) fn listing_of(
    alloc: Global,
    listing: Listing,
    roster: &Roster,
    stage: &Lone,
) -> Result<String, NoMemory>
    ensures { IfOk result (λ text. string_bytes text ≡ listing_text listing roster.now.ports (table (history_of stage.now.world))) }
{
    let table = Table::of(alloc, stage.history())?;
    list(alloc, listing, &table, roster)
}

/// The listing of a table at the end of a scenario, or its bad line.
///
/// # Errors
///
/// `NoMemory` where the scenario's steps, the world or the text find no room.
pub fn show(alloc: Global, listing: Listing, scenario: &[u8]) -> Result<Told, NoMemory>
    requires { length scenario.now ≤ most_bytes }
    ensures { IfOk result (TellsWhole (listed listing) scenario.now) }
{
    let whole = read_scenario(alloc, false, scenario)?;
    let last = whole.close();
    match last {
        Last::Ended => {
            let ran = run(alloc, whole)?;
            let text = listing_of(alloc, listing, &ran.roster, &ran.stage)?;
            Ok(Told { text, well: true })
        }
        Last::Bad(..) => bad_text(alloc, Some(last)),
    }
}
