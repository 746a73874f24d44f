ghost use Rattle.std.specs.Prelude.{◌≡◌, ◌++◌, [], ◌∷◌, if◌then◌else◌, IfOk};
ghost use Rattle.std.specs.List.{list_any};
ghost use Rattle.new_board.specs.NewChip.{gate_products, comb_products, products_by, unit_products, control_products};
ghost use Rattle.new_board.specs.NewFiles.{is_full, has_full_row as row_full};

use crate::pin_columns::Columns;
use avail::unit_register;
use mig_base::{Gate, Items, Literal, NoMemory, is_22};
use new_board::PlacedUnit;
use std::alloc::Global;

impl<'a> Columns<'a> {
    /// Whether one of these products would have every fuse intact.
    fn any_full(&self, alloc: Global, terms: &[Items<Literal>]) -> Result<bool, NoMemory>
        ensures { IfOk result (λ full. full ≡ list_any (is_full self.now.nets.old.now self.now.nets.chip.now) terms.now) }
    {
        for term in terms {
            if self.is_full(alloc, term.items())? {
                return Ok(true);
            }
        }
        Ok(false)
    }

    /// Whether a product or one of these terms would.
    fn enabled_full(
        &self,
        alloc: Global,
        enable: &[Literal],
        terms: &[Items<Literal>],
    ) -> Result<bool, NoMemory>
        ensures { IfOk result (λ full. full ≡ list_any (is_full self.now.nets.old.now self.now.nets.chip.now) (enable.now ∷ terms.now)) }
    {
        if self.is_full(alloc, enable)? {
            return Ok(true);
        }
        self.any_full(alloc, terms)
    }

    /// Whether a row would.
    fn gate_full(&self, alloc: Global, gate: &Gate) -> Result<bool, NoMemory>
        ensures { IfOk result (λ full. full ≡ list_any (is_full self.now.nets.old.now self.now.nets.chip.now) (gate_products gate.now)) }
    {
        match gate {
            Gate::Never => Ok(false),
            Gate::Product(lits) => self.enabled_full(alloc, lits.items(), &[]),
        }
    }

    /// Whether a row of a combinational unit would. It has none where it is never enabled.
    fn combinational_full(
        &self,
        alloc: Global,
        enable: &Gate,
        terms: &[Items<Literal>],
    ) -> Result<bool, NoMemory>
        ensures { IfOk result (λ full. full ≡ list_any (is_full self.now.nets.old.now self.now.nets.chip.now) (comb_products enable.now terms.now)) }
    {
        match enable {
            Gate::Never => Ok(false),
            Gate::Product(lits) => self.enabled_full(alloc, lits.items(), terms),
        }
    }

    /// Whether a row of a registered unit would: a term, or where rows enable it its enable.
    fn registered_full(
        &self,
        alloc: Global,
        by_row: bool,
        enable: &Gate,
        terms: &[Items<Literal>],
    ) -> Result<bool, NoMemory>
        ensures { IfOk result (λ full. full ≡ list_any (is_full self.now.nets.old.now self.now.nets.chip.now) (terms.now ++ (if by_row then gate_products enable.now else []))) }
    {
        if self.any_full(alloc, terms)? {
            return Ok(true);
        }
        if by_row {
            return self.gate_full(alloc, enable);
        }
        Ok(false)
    }

    /// Whether a row of a unit would.
    fn unit_full(&self, alloc: Global, unit: &PlacedUnit) -> Result<bool, NoMemory>
        ensures { IfOk result (λ full. full ≡ list_any (is_full self.now.nets.old.now self.now.nets.chip.now) (unit_products self.now.nets.old.now.circuit self.now.nets.chip.now unit.now)) }
    {
        let (old, chip) = (self.nets.old, self.nets.chip);
        match unit_register(old.circuit, unit.unit) {
            Some(_) => self.registered_full(
                alloc,
                is_22(chip.kind),
                &unit.enable,
                unit.terms.items(),
            ),
            None => self.combinational_full(alloc, &unit.enable, unit.terms.items()),
        }
    }

    /// Whether the reset or preset row of a unit would.
    fn shared_full(&self, alloc: Global, unit: &PlacedUnit) -> Result<bool, NoMemory>
        ensures { IfOk result (λ full. full ≡ list_any (is_full self.now.nets.old.now self.now.nets.chip.now) (gate_products unit.now.reset ++ gate_products unit.now.preset)) }
    {
        if self.gate_full(alloc, &unit.reset)? {
            return Ok(true);
        }
        self.gate_full(alloc, &unit.preset)
    }

    /// Whether the reset or preset row of the chip would.
    fn controls_full(&self, alloc: Global) -> Result<bool, NoMemory>
        ensures { IfOk result (λ full. full ≡ list_any (is_full self.now.nets.old.now self.now.nets.chip.now) (control_products self.now.nets.old.now.circuit self.now.nets.chip.now)) }
    {
        let (old, chip) = (self.nets.old, self.nets.chip);
        if !is_22(chip.kind) {
            return Ok(false);
        }
        match chip.first_registered(old.circuit) {
            Some(unit) => self.shared_full(alloc, unit),
            None => Ok(false),
        }
    }

    /// Whether a row of a unit, or the reset or preset row of its chip, would have every fuse intact. Fails for want of
    /// memory alone.
    pub fn has_full_row(&self, alloc: Global, unit: &PlacedUnit) -> Result<bool, NoMemory>
        ensures { IfOk result (λ full. full ≡ row_full self.now.nets.old.now self.now.nets.chip.now unit.now) }
    {
        if self.unit_full(alloc, unit)? {
            return Ok(true);
        }
        self.controls_full(alloc)
    }
}
