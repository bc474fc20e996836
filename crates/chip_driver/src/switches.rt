//! The traps and the control row.
ghost use Rattle.std.specs.Prelude.{◌≡◌, ◌≤◌, true, false, if◌then◌else◌};
ghost use Rattle.chip_driver.specs.Making.{SwitchesTraps};

use chip_tables::{Control, Tables, trap_rows};

/// Switches the traps from one on.
pub fn switch_traps(tables: &mut Tables, low: usize, on: bool)
    requires { low ≤ 21 }
    ensures { SwitchesTraps low 21 on tables.old tables.new }
{
    for i in low..trap_rows::COUNT {
        tables.set_trap(i, on);
    }
}

/// What the control row tells before any change: snooping is on.
pub fn first_control() -> Control
    ensures { result ≡ record { snooping = true; tree = false; four = false; six = false } }
{
    Control {
        snooping: true,
        tree: false,
        four: false,
        six: false,
    }
}

/// What the control row tells after a querier came or went.
pub fn with_querier(old: Control, six: bool, on: bool) -> Control
    ensures { result ≡ record old { four = (if six then old.four else on); six = (if six then on else old.six) } }
{
    if six {
        Control { six: on, ..old }
    } else {
        Control { four: on, ..old }
    }
}
