//! What frames and turns leave in a chip's reports: the hit of an entry, and the offer of a report.
ghost use Rattle.std.specs.Prelude.{◌≡◌, ℕ, OnErr, OnOk};
ghost use Rattle.br_model.specs.Plane.Chip.{Chip as ChipValue, hit_by, hits_entry, offered, offers};
ghost use Rattle.learn_report.specs.Reports.{chip_of};

use crate::NoMemory;
use crate::reports::Reports;
use br_model::change::Change;
use br_model::numbers::{Mac, Port, Vid};

/// The entry that a change puts.
pub fn entry_put(change: &Change) -> Option<(Vid, Mac)>
    ensures { (c : ChipValue) → hits_entry result c ≡ hit_by c change.now }
{
    match *change {
        Change::AddrPut { vid, mac, .. } => Some((vid, mac)),
        _ => None,
    }
}

/// Sets the hit of an entry.
pub fn hit(reports: &mut Reports, entry: Option<(Vid, Mac)>) -> Result<(), NoMemory>
    ensures ok { OnOk result ((dom n : ℕ) → chip_of dom n reports.new ≡ hits_entry entry (chip_of dom n reports.old)) }
    ensures err { OnErr result (reports.new ≡ reports.old) }
{
    match entry {
        Some(key) => reports.hit(key.0, key.1),
        None => Ok(()),
    }
}

/// Offers a report, which is kept where it is new and there is room.
fn offer_report(reports: &mut Reports, vid: Vid, mac: Mac, port: Port)
    ensures { (dom n : ℕ) → chip_of dom n reports.new ≡ offered (chip_of dom n reports.old) (vid, mac, port) }
{
    let _kept = reports.offer(vid, mac, port);
}

/// Offers to report that a station is behind the port.
pub fn offer(reports: &mut Reports, port: Port, station: Option<(Vid, Mac)>)
    ensures { (dom n : ℕ) → chip_of dom n reports.new ≡ offers port station (chip_of dom n reports.old) }
{
    match station {
        Some(key) => offer_report(reports, key.0, key.1, port),
        None => {}
    }
}
