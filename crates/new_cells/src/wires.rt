ghost use Rattle.std.specs.Prelude.{◌≡◌, IfOk};
ghost use Rattle.new_board.specs.NewFiles.{new_wires as wires_on, fitted as fit_on};

use crate::pin_columns::Columns;
use avail::pin_net;
use devices::ordinary_pins;
use mig_base::{Items, NoMemory};
use new_board::{FittedChip, PinNet};
use std::alloc::Global;

impl<'a> Columns<'a> {
    /// The pins of the new chip that have a line, rising. Fails for want of memory alone.
    pub fn wires(&self, alloc: Global) -> Result<Items<PinNet>, NoMemory>
        ensures { IfOk result (λ wires. wires ≡ wires_on self.now.nets.old.now self.now.nets.chip.now) }
    {
        let (old, chip) = (self.nets.old, self.nets.chip);
        let mut wires = Vec::new(alloc);
        for pin in ordinary_pins(chip.kind) {
            if let Some(wire) = old.wire_at(*pin, pin_net(&self.nets, self.taken(), *pin)) {
                wires.push(wire)?;
            }
        }
        Ok(Items::new(wires))
    }

    /// The new chip with its cells and the pins that have a line. Fails for want of memory alone.
    pub fn fitted(&self, alloc: Global) -> Result<FittedChip, NoMemory>
        ensures { IfOk result (λ made. made ≡ fit_on self.now.nets.old.now self.now.nets.chip.now) }
    {
        let wires = self.wires(alloc)?;
        let cells = self.cells(alloc)?;
        let chip = self.nets.chip;
        Ok(FittedChip {
            name: chip.name,
            cells,
            wires,
        })
    }
}
