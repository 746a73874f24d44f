ghost use Rattle.std.specs.Prelude.{ℕ, ◌≡◌, ◌<◌, true, length, Option};
ghost use Rattle.mig_base.specs.Structure.{alias_of};
ghost use Rattle.structure.specs.Absorbable.{IsAbsorbable};
ghost use Rattle.structure.specs.Aliases.{alias_named};
ghost use Rattle.structure.specs.Live.{IsLive};
ghost use Rattle.structure.specs.Products.{part_products};
ghost use Rattle.structure.specs.Pure.{IsPure};
ghost use Rattle.board.specs.Joined.{equations_of};
ghost use Rattle.board.specs.UnitLists.{register_units};
ghost use Rattle.board.specs.Variables.{IsVariable, read_of};

use crate::Board;
use mig_base::{Part, Var, VarProduct};
use structure::{flag_at, unit_of};

/// An alias by the unit of its register, where the units of the registers are these.
fn by_unit(registers: &[u32], alias: Option<(u32, bool)>) -> Option<(u32, bool)>
    ensures { result ≡ alias_named registers.now alias }
{
    let (register, is_q) = alias?;
    Some((unit_of(registers, register), is_q))
}

impl Board {
    /// Whether a variable is pure, that is always 0 or 1.
    pub fn is_pure(&self, variable: Var) -> bool
        requires { IsVariable self.now variable }
        ensures yes { result ≡ true → IsPure (equations_of self.now) (read_of self.now.chips variable) }
        ensures no { IsPure (equations_of self.now) (read_of self.now.chips variable) → result ≡ true }
    {
        self.structure.purity.has(self.read(variable))
    }

    /// Whether a unit is live: an Output or Both port or another live unit depends on it.
    pub fn is_live(&self, unit: u32) -> bool
        requires { unit < length (equations_of self.now).units }
        ensures yes { result ≡ true → IsLive (equations_of self.now) unit }
        ensures no { IsLive (equations_of self.now) unit → result ≡ true }
    {
        flag_at(self.structure.live.items(), unit as usize)
    }

    /// Whether a unit can be absorbed into what reads it: it is combinational, always enabled, and the only driver of a net that
    /// is no port.
    pub fn absorbable(&self, unit: u32) -> bool
        requires { unit < length (equations_of self.now).units }
        ensures yes { result ≡ true → IsAbsorbable (equations_of self.now) unit }
        ensures no { IsAbsorbable (equations_of self.now) unit → result ≡ true }
    {
        flag_at(self.structure.absorbable.items(), unit as usize)
    }

    /// The unit of the register whose alias this net is, and whether the net's level is Q. None exactly where the net is no alias.
    pub fn alias(&self, net: u32) -> Option<(u32, bool)>
        requires { net < length (equations_of self.now).nets }
        ensures { result ≡ alias_named (register_units self.now.chips) (alias_of (equations_of self.now) net) }
    {
        let aliases = self.structure.aliases.items();
        by_unit(self.tables.registers.items(), aliases[net as usize])
    }

    /// The products of a part of a unit, over variables. Always is one empty product, and Never none.
    pub fn products(&self, unit: u32, part: Part) -> &[VarProduct]
        requires { unit < length (equations_of self.now).units }
        ensures { result.now ≡ part_products (equations_of self.now) (register_units self.now.chips) unit part }
    {
        let products = self.structure.products.items();
        products[unit as usize].of(part)
    }
}
