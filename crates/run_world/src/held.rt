//! The decisions of the frames that are held.
ghost use Rattle.std.specs.Prelude.{◌≡◌, ℕ, None, Some, OnOk, OnErr};
ghost use Rattle.run_world.specs.Held.{AreSame, Puts, verdict_of};

use crate::NoMemory;
use forward_rules::Verdict;
use std::alloc::Global;
use std::collections::BTreeMap;

/// The verdicts of held frames by their ids. Each was made when its frame was held, by what was published then.
#[derive(Drop)]
pub(crate) struct Verdicts {
    by_id: BTreeMap<u32, Verdict>,
}

impl Verdicts {
    pub(crate) fn new(alloc: Global) -> Verdicts
        ensures { (id : ℕ) → verdict_of result id ≡ None }
    {
        Verdicts {
            by_id: BTreeMap::new(alloc),
        }
    }

    /// That of the frame with this id.
    pub(crate) fn get(&self, id: u32) -> Option<Verdict>
        ensures { result ≡ verdict_of self.now id }
    {
        self.by_id.get(&id).copied()
    }

    /// The frame with this id has this one from now on.
    pub(crate) fn put(&mut self, id: u32, verdict: Verdict) -> Result<(), NoMemory>
        ensures ok { OnOk result (Puts self.old self.new id (Some verdict)) }
        ensures err { OnErr result (AreSame self.old self.new) }
    {
        // law: its VLAN is in range
        let _vid = verdict.vid;
        self.by_id.insert(id, verdict)?;
        Ok(())
    }

    /// The frame with this id is held no more.
    pub(crate) fn remove(&mut self, id: u32)
        ensures { Puts self.old self.new id None }
    {
        let _verdict = self.by_id.remove(&id);
    }
}
