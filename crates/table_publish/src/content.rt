//! What readers take: the tables, beside what they are the tables of.
ghost use Rattle.std.specs.Prelude.{◌≡◌};
ghost use Rattle.table_publish.specs.Content.{taken};

use crate::NoMemory;
use crate::law::Shown;
use crate::packed::Packed;
use br_model::change::Change;
use forward_rules::SoftTables;
use left_right::Absorb;

/// The tables of all publications, how many changes and publications they are, and the book that has them.
#[derive(Drop)]
pub struct Published {
    pub tables: SoftTables,
    pub len: u64,
    pub batches: u64,
    pub seen: Shown,
}

/// A publication: its changes, and the book that has them.
#[derive(Drop)]
pub struct Operation {
    pub changes: Packed,
    pub batches: u64,
    pub seen: Shown,
}

/// A change that doesn't fit is left out, so that any operation has a result. Within the limits there is none.
fn take_in(tables: &mut SoftTables, change: &Change)
    ensures { tables.new ≡ taken tables.old change.now }
{
    if tables.fits(change) {
        tables.apply(change);
    }
}

impl Absorb<Operation> for Published {
    ghost use Rattle.table_publish.specs.Content.{after};

    type State = Published;

    ghost state = { λ s. s };

    ghost applied = { after };

    ghost never_fails = { Unit {0} };

    fn absorb_first(&mut self, operation: &Operation, _other: &Published) -> Result<(), NoMemory> {
        for i in 0..operation.changes.len() {
            take_in(&mut self.tables, &operation.changes.get(i));
        }
        self.len = self.len.wrapping_add(operation.changes.len() as u64);
        self.batches = operation.batches;
        self.seen = operation.seen.again();
        Ok(())
    }
}
