//! The rows that are found by keys.
ghost use Rattle.std.specs.Prelude.{ℕ, ◌≡◌};
ghost use Rattle.br_model.specs.Table.Domains.{Domains};
ghost use Rattle.br_model.specs.Table.Table.{Table};
ghost use Rattle.chip_tables.specs.Stands.{Stands};
ghost use Rattle.chip_pipeline.specs.Ways.{entry_wanted, group_wanted};

use br_model::group::Group;
use br_model::numbers::{Mac, Vid};
use chip_tables::{AddressRow, FanRow, Tables};

/// The row of an address.
pub fn address_row(tables: &Tables, vid: Vid, mac: Mac) -> Option<AddressRow>
    ensures { (d : Domains) (dom : ℕ) (t : Table) → Stands d dom tables.now t → result ≡ entry_wanted t vid mac }
{
    tables.address(vid, mac)
}

/// The row of a group.
pub fn group_row(tables: &Tables, vid: Vid, group: Group) -> Option<FanRow>
    ensures { (d : Domains) (dom : ℕ) (t : Table) → Stands d dom tables.now t → result ≡ group_wanted d dom t vid group }
{
    tables.group(vid, group)
}
