ghost use Rattle.std.specs.Prelude.{ℕ, ◌≡◌, ◌<◌, true, false, List, length, Some, slice_get};
ghost use Rattle.mig_base.specs.declared.cells.ChipCells.{ChipCells};
ghost use Rattle.mig_base.specs.declared.nets.Net.{Net};
ghost use Rattle.mig_base.specs.Among.{Among};
ghost use Rattle.mig_base.specs.Boards.{ChipUnit, at_of, circuit, net_of, units_from};
ghost use Rattle.structure.specs.Live.{DrivesWire};
ghost use Rattle.board.specs.Driven.{IsDrivenNet};
ghost use Rattle.board.specs.Joined.{equations_of};

use crate::Board;

/// Whether these numbers have this one.
fn has_number(numbers: &[u32], number: u32) -> bool
    ensures yes { result ≡ true → Among number numbers.now }
    ensures no { result ≡ false → Among number numbers.now → ⊥ }
{
    for other in numbers {
        if *other == number {
            return true;
        }
    }
    false
}

impl Board {
    /// The net that a unit drives: that of its pin, where the unit can be enabled.
    pub fn driven_net(&self, unit: u32) -> Option<u32>
        requires { unit < length (equations_of self.now).units }
        ensures { IsDrivenNet (equations_of self.now) unit result }
    {
        let units = self.tables.units.items();
        let named = units[unit as usize];
        let net = named.net;
        if net >= self.nets() {
            return None;
        }
        if has_number(self.drivers(net), unit) {
            return Some(net);
        }
        None
    }
}

/// A unit drives one net at most.
pub fn unit_drives_one_net()
    ensures { (net : Net) (chips : List ChipCells) (n m u : ℕ) → DrivesWire u (slice_get (circuit net chips).nets n) → DrivesWire u (slice_get (circuit net chips).nets m) → n ≡ m }
{}

/// The net that a unit drives is that of its pin.
pub fn unit_drives_net_of_pin()
    ensures { (net : Net) (chips : List ChipCells) (n u : ℕ) (unit : ChipUnit) → slice_get (units_from 0 chips) u ≡ Some unit → DrivesWire u (slice_get (circuit net chips).nets n) → n ≡ net_of net (at_of unit) }
{}
