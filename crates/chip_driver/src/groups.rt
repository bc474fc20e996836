//! The rows of groups.
ghost use Rattle.std.specs.Prelude.{◌≡◌, ◌==◌, ◌&&◌, IsTrue};
ghost use Rattle.br_model.specs.Table.GroupPairs.{has_room};
ghost use Rattle.br_model.specs.Table.Groups.{membership_cmp};
ghost use Rattle.br_model.specs.Data.Maps.{joined, parted};
ghost use Rattle.chip_driver.specs.GroupRows.{AreUsed, GroupsFollow, RefreshesGroups, group_fan, is_among, is_member};

use crate::fans;
use crate::shadow::Shadow;
use br_model::group::Group;
use br_model::numbers::{Port, Vid};
use chip_tables::{FanRow, Tables};
use mdb_snoop::Groups;

/// The row of a group in a VLAN.
fn group_row(tables: &Tables, shadow: &Shadow, groups: &Groups, v: Vid, g: Group) -> FanRow
    ensures { result ≡ group_fan shadow.now tables.now groups.now (v, g) }
{
    fans::fan_to(shadow, tables.vlan(v).members, groups.members(v, g))
}

/// Makes the rows of the groups anew of which the port is a member, in a VLAN or in all.
fn refresh_all(tables: &mut Tables, shadow: &Shadow, groups: &Groups, p: Port, vid: Option<Vid>)
    requires { AreUsed groups.now tables.old }
    ensures { RefreshesGroups (λ k. is_among vid k.0 && is_member groups.now p k)
        shadow.now groups.now tables.old tables.new }
{
    // law: groups ascend, within their limit
    groups.members_ascend();
    for i in 0..groups.pairs() {
        if let Some(pair) = groups.pair(i) {
            let member = groups.member_at(i, p);
            if is_asked(&vid, pair.0, member) {
                let row = group_row(tables, shadow, groups, pair.0, pair.1);
                tables.set_group(pair.0, pair.1, Some(row));
            }
        }
    }
}

/// Whether the port is a member and the VLAN is asked for, as each is where none is named.
fn is_asked(asked: &Option<Vid>, v: Vid, member: bool) -> bool
    ensures { result ≡ (is_among asked.now v && member) }
{
    match *asked {
        Some(vid) => v == vid && member,
        None => member,
    }
}

/// The same, but it looks at none where the port is a member of none.
fn refresh_any(tables: &mut Tables, shadow: &Shadow, groups: &Groups, p: Port, vid: Option<Vid>)
    requires { AreUsed groups.now tables.old }
    ensures { RefreshesGroups (λ k. is_among vid k.0 && is_member groups.now p k)
        shadow.now groups.now tables.old tables.new }
{
    if groups.is_member(p) {
        refresh_all(tables, shadow, groups, p, vid);
    }
}

/// Makes the rows of the groups anew of which the port is a member, in a VLAN or in all, where it touches them.
pub fn refresh(
    tables: &mut Tables,
    shadow: &Shadow,
    groups: &Groups,
    touched: bool,
    port: Port,
    vid: Option<Vid>,
)
    requires { AreUsed groups.now tables.old }
    ensures { RefreshesGroups (λ k. touched && (is_among vid k.0 && is_member groups.now port k))
        shadow.now groups.now tables.old tables.new }
{
    if touched {
        refresh_any(tables, shadow, groups, port, vid);
    }
}

/// Joins a port to a group, and makes its row anew.
pub fn join(
    tables: &mut Tables,
    shadow: &Shadow,
    groups: &mut Groups,
    vid: Vid,
    group: Group,
    port: Port,
)
    requires room { IsTrue (has_room groups.old vid group) }
    requires follow { GroupsFollow shadow.now groups.old tables.old }
    ensures members { groups.new ≡ joined membership_cmp groups.old (vid, group, port) }
    ensures follow { GroupsFollow shadow.now groups.new tables.new }
    ensures rest { tables.new ≡ record tables.old { groups = tables.new.groups } }
{
    // law: the VLAN is in range
    let _number = vid.number();
    groups.join(vid, group, port);
    // law: groups ascend, within their limit
    groups.members_ascend();
    let row = group_row(tables, shadow, groups, vid, group);
    tables.set_group(vid, group, Some(row));
}

/// Parts a port from a group, and makes its row anew, which goes with the last member.
pub fn part(
    tables: &mut Tables,
    shadow: &Shadow,
    groups: &mut Groups,
    vid: Vid,
    group: Group,
    port: Port,
)
    requires { GroupsFollow shadow.now groups.old tables.old }
    ensures members { groups.new ≡ parted membership_cmp groups.old (vid, group, port) }
    ensures follow { GroupsFollow shadow.now groups.new tables.new }
    ensures rest { tables.new ≡ record tables.old { groups = tables.new.groups } }
{
    // law: the VLAN is in range
    let _number = vid.number();
    groups.part(vid, group, port);
    // law: groups ascend, within their limit
    groups.members_ascend();
    let row = if groups.members(vid, group).is_empty() {
        None
    } else {
        Some(group_row(tables, shadow, groups, vid, group))
    };
    tables.set_group(vid, group, row);
}
