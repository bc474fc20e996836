//! Laws of audits. A law is a function that does nothing: its contract says it.
ghost use Rattle.std.specs.Prelude.{◌≡◌, ℕ, List, [], true, not, drop};
ghost use Rattle.std.specs.List.{fold, list_all, list_any};
ghost use Rattle.std.specs.Option.{is_some};
ghost use Rattle.br_model.specs.declared.change.Change.{Change};
ghost use Rattle.br_model.specs.declared.domains.Edition.{Edition};
ghost use Rattle.br_model.specs.Data.Maps.{pair_cmp, get};
ghost use Rattle.br_model.specs.Plane.Chip.{Chip};
ghost use Rattle.br_model.specs.Plane.Runs.{pending_of};
ghost use Rattle.br_model.specs.Plane.World.{World};
ghost use Rattle.br_model.specs.Table.Cut.{cut, deferred_of};
ghost use Rattle.br_model.specs.Table.Table.{apply, table};
ghost use Rattle.neigh_netlink.specs.Neighbours.{Key};
ghost use Rattle.neigh_netlink.specs.Offloaded.{is_of_key, offloaded};
ghost use Rattle.chip_audit.specs.Audits.{audit_of};
ghost use Rattle.chip_audit.specs.Lines.{audited};
ghost use Rattle.chip_audit.specs.Worked.{put_again_text, put_again_told, stale_entry_text, stale_entry_told, told_chip_text, told_chip_told};

/// A chip's table, changed by the updates that it hasn't applied, has the addresses of the bridge's.
pub fn updates_lead_to_the_bridge()
    ensures { (edition : Edition) (history : List Change) (k : ℕ)
        → (fold apply (table (cut edition history k)) (drop k (deferred_of edition history))).addr ≡ (table history).addr }
{}

/// An entry of the bridge is offloaded exactly where none of these updates is of its VLAN and address.
pub fn pending_entries_are_named()
    ensures { (edition : Edition) (history : List Change) (k : ℕ) (key : Key) → is_some (get pair_cmp (table history).addr key) ≡ true
        → offloaded edition history k key ≡ not (list_any (is_of_key key) (drop k (deferred_of edition history))) }
{}

/// So where none is pending all entries are offloaded, and none is stale.
pub fn with_nothing_pending()
    ensures offloaded { (w : World) (c : Chip) → pending_of w c ≡ 0 → list_all (λ e. e.1.offloaded) (audit_of w c).entries ≡ true }
    ensures stale { (w : World) (c : Chip) → pending_of w c ≡ 0 → (audit_of w c).stale ≡ [] }
{}

/// A station has moved: until the chip is told, its entry is stale.
pub fn stale_entry()
    ensures before { audited stale_entry_text ≡ stale_entry_told }
    ensures after { audited told_chip_text ≡ told_chip_told }
{}

/// An entry that was deleted and put again is pending, though the chip has the same.
pub fn put_again()
    ensures { audited put_again_text ≡ put_again_told }
{}
