//! The lines of a run, as it goes on.
ghost use Rattle.std.specs.Prelude.{◌≡◌, ◌+◌, ◌≤◌, ◌<◌, ◌++◌, IfSome, OnOk, Some, length, slice_get};
ghost use Rattle.std.specs.Option.{option_to_list};
ghost use Rattle.br_model.specs.Plane.Chip.{Chip};
ghost use Rattle.br_model.specs.Plane.World.{World};
ghost use Rattle.br_model.specs.Table.Change.{updates};
ghost use Rattle.br_model.specs.Table.Cut.{deferred_count};
ghost use Rattle.br_model.specs.Table.Limits.{most_changes};
ghost use Rattle.driver_notices.specs.Notices.{lines_of, taken};
ghost use Rattle.driver_notices.specs.Tellers.{line_of_update, next_count, next_line};

use crate::NoMemory;
use crate::line::NoticeLine;
use br_model::change::{Change, Update};
use br_model::domains::Edition;
use br_model::numbers::Dom;

/// Gives the lines of changes, and keeps how many of them were put into the queues.
#[derive(Clone, Copy)]
pub struct Teller {
    edition: Edition,
    count: u32,
}

/// The line of a change behind so many deferred ones.
fn line(edition: Edition, step: u32, count: u32, change: &Change) -> NoticeLine
    requires { count < most_changes }
    ensures { result ≡ next_line edition step count change.now }
{
    if change.is_deferred(edition) {
        NoticeLine::Queued {
            step,
            number: count + 1,
            change: *change,
        }
    } else {
        NoticeLine::Told {
            step,
            change: *change,
        }
    }
}

/// How many deferred ones there are with this change.
fn counted(edition: Edition, count: u32, change: &Change) -> u32
    requires { count < most_changes }
    ensures { result ≡ next_count edition count change.now }
{
    if change.is_deferred(edition) {
        count + 1
    } else {
        count
    }
}

impl Teller {
    /// Before the first change.
    pub fn new(edition: Edition) -> Teller
        ensures edition { result.edition ≡ edition }
        ensures count { result.count ≡ 0 }
    {
        Teller { edition, count: 0 }
    }

    /// Puts the lines of changes that this step accepts behind `lines`.
    pub fn accept(
        &mut self,
        step: u32,
        changes: &[Change],
        lines: &mut Vec<NoticeLine>,
    ) -> Result<(), NoMemory>
        requires { self.old.count + length changes.now ≤ most_changes }
        ensures lines { OnOk result (lines.new.items ≡ lines.old.items ++ lines_of self.old.edition step self.old.count changes.now) }
        ensures count { OnOk result (self.new.count ≡ self.old.count + deferred_count self.old.edition changes.now) }
        ensures edition { self.new.edition ≡ self.old.edition }
    {
        for change in changes {
            lines.push(line(self.edition, step, self.count, change))?;
            self.count = counted(self.edition, self.count, change);
        }
        Ok(())
    }

    /// How many of them were put into the queues.
    pub fn count(&self) -> u32
        ensures { result ≡ self.now.count }
    {
        self.count
    }
}

fn applied(step: u32, dom: Dom, update: Option<Update>) -> Option<NoticeLine>
    requires { IfSome update (λ u. u.ticket < most_changes) }
    ensures { result ≡ line_of_update step dom update }
{
    match update {
        Some(update) => Some(NoticeLine::Applied {
            step,
            dom,
            number: update.ticket + 1,
            change: update.change,
        }),
        None => None,
    }
}

/// The line of a turn of the domain's chip, whose next update this is; none where there is no update.
pub fn take(step: u32, dom: Dom, update: Option<Update>) -> Option<NoticeLine>
    requires { IfSome update (λ u. u.ticket < most_changes) }
    ensures { (w : World) (c : Chip) → update ≡ slice_get (updates w.setup.domains.edition w.history) c.count
        → option_to_list result ≡ taken step dom w (Some c) }
{
    applied(step, dom, update)
}
