ghost use Rattle.std.specs.Prelude.{◌≡◌, IfOk};
ghost use Rattle.joiner.specs.Marked.{marked, no_marks, with_var, with_vars, vars_of, vars_in};

use crate::absorbed::{no_flags, raise};
use mig_base::{Items, NoMemory, Var, VarLit, VarProduct};
use std::alloc::Global;
use structure::flag_at;

/// Marked variables: nets by number, and registers by the numbers of their units.
#[derive(Drop)]
pub(crate) struct Marks {
    nets: Items<bool>,
    units: Items<bool>,
}

impl Marks {
    /// No marks, for so many nets and units.
    pub(crate) fn new(alloc: Global, nets: usize, units: usize) -> Result<Marks, NoMemory>
        ensures { IfOk result (λ marks. marks ≡ no_marks nets units) }
    {
        let nets = no_flags(alloc, nets)?;
        let units = no_flags(alloc, units)?;
        Ok(Marks { nets, units })
    }

    /// Whether a variable is marked. What the board doesn't have is not.
    pub(crate) fn has(&self, variable: Var) -> bool
        ensures { result ≡ marked self.now variable }
    {
        match variable {
            Var::Net(net) => flag_at(self.nets.items(), net as usize),
            Var::Reg(unit) => flag_at(self.units.items(), unit as usize),
        }
    }

    /// Marks a variable, where the board has it.
    fn add(&mut self, variable: Var)
        ensures { self.new ≡ with_var self.old variable }
    {
        match variable {
            Var::Net(net) => raise(&mut self.nets, net as usize),
            Var::Reg(unit) => raise(&mut self.units, unit as usize),
        }
    }

    /// Marks the variables of a product.
    fn add_product(&mut self, literals: &[VarLit])
        ensures { self.new ≡ with_vars self.old (vars_of literals.now) }
    {
        for literal in literals {
            self.add(literal.var);
        }
    }

    /// Marks the variables of these products.
    pub(crate) fn add_terms(&mut self, terms: &[VarProduct])
        ensures { self.new ≡ with_vars self.old (vars_in terms.now) }
    {
        for term in terms {
            self.add_product(term.lits.items());
        }
    }
}
