//! What an audit finds.
ghost use Rattle.std.specs.Prelude.{◌≡◌, IfOk, map, not};
ghost use Rattle.std.specs.List.{filter};
ghost use Rattle.chip_audit.specs.Audits.{offloaded_keys as offloaded_in, pending_keys as pending_in, stale_keys as stale_in};

use crate::NoMemory;
use crate::entries::Entries;
use crate::rows::Row;
use fdb_core::{Key, Keys};
use std::alloc::Global;
use std::marker::Model;

/// The bridge's entries, the stale ones of a chip, and how many updates wait for it. All ascend by VLAN and address.
#[derive(Drop)]
pub struct Comparison {
    entries: Entries,
    stale: Vec<Row>,
    waiting: u32,
}

impl Model for Comparison {
    ghost use Rattle.chip_audit.specs.Audits.{Audited};

    ghost Value = { Audited };

    ghost view = { λ c. record { entries = c.entries.entries; stale = c.stale.items; waiting = c.waiting } };
}

/// The keys of an audit, ascending by VLAN and address, and how many updates wait.
#[derive(Drop)]
pub struct Audit {
    /// Of the bridge's entries that the chip has.
    pub offloaded: Keys,
    /// Of its other entries.
    pub pending: Keys,
    /// Of the entries of the chip that the bridge hasn't so.
    pub stale: Keys,
    /// Updates that the chip hasn't applied.
    pub waiting: u32,
}

/// The keys of the entries that the chip has.
fn offloaded_keys(alloc: Global, entries: &Entries) -> Result<Keys, NoMemory>
    ensures { IfOk result (λ keys. keys ≡ map (λ e. e.0) (filter (λ e. e.1.offloaded) entries.now.entries)) }
{
    let mut keys = Vec::new(alloc);
    for (key, found) in entries {
        if found.offloaded {
            keys.push(*key)?;
        }
    }
    Ok(Keys::of(keys))
}

/// The keys of the others.
fn pending_keys(alloc: Global, entries: &Entries) -> Result<Keys, NoMemory>
    ensures { IfOk result (λ keys. keys ≡ map (λ e. e.0) (filter (λ e. not e.1.offloaded) entries.now.entries)) }
{
    let mut keys = Vec::new(alloc);
    for (key, found) in entries {
        if !found.offloaded {
            keys.push(*key)?;
        }
    }
    Ok(Keys::of(keys))
}

/// The keys of rows.
fn stale_keys(alloc: Global, rows: &[Row]) -> Result<Keys, NoMemory>
    ensures { IfOk result (λ keys. keys ≡ map (λ e. e.0) rows.now) }
{
    let mut keys = Vec::with_capacity(alloc, rows.len())?;
    for row in rows {
        keys.push(row.0)?;
    }
    Ok(Keys::of(keys))
}

impl Comparison {
    pub(crate) fn of(entries: Entries, stale: Vec<Row>, waiting: u32) -> Comparison
        ensures { result ≡ record { entries = entries.entries; stale = stale.items; waiting = waiting } }
    {
        Comparison {
            entries,
            stale,
            waiting,
        }
    }

    /// The bridge's entries.
    pub fn entries(&self) -> &Entries
        ensures { result.now.entries ≡ self.now.entries }
    {
        &self.entries
    }

    /// The stale entries of the chip.
    pub fn stale(&self) -> &[Row]
        ensures { result.now ≡ self.now.stale }
    {
        self.stale.as_slice()
    }

    /// How many updates wait for the chip.
    pub fn waiting(&self) -> u32
        ensures { result ≡ self.now.waiting }
    {
        self.waiting
    }

    /// The keys alone.
    pub fn audit(&self, alloc: Global) -> Result<Audit, NoMemory>
        ensures offloaded { IfOk result (λ a. a.offloaded ≡ offloaded_in self.now) }
        ensures pending { IfOk result (λ a. a.pending ≡ pending_in self.now) }
        ensures stale { IfOk result (λ a. a.stale ≡ stale_in self.now) }
        ensures waiting { IfOk result (λ a. a.waiting ≡ self.now.waiting) }
    {
        Ok(Audit {
            offloaded: offloaded_keys(alloc, &self.entries)?,
            pending: pending_keys(alloc, &self.entries)?,
            stale: stale_keys(alloc, &self.stale)?,
            waiting: self.waiting,
        })
    }
}
