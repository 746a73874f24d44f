ghost use Rattle.std.specs.Prelude.{◌≡◌, map, IfOk};
ghost use Rattle.structure.specs.Products.{var_by};

use mig_base::{Items, NoMemory, Read, Var};
use std::alloc::Global;

/// The variable of a node, by the unit numbers of the registers.
pub(crate) fn variable(node: Read, registers: &[u32]) -> Var
    ensures { result ≡ var_by registers.now node }
{
    match node {
        Read::OfNet(net) => Var::Net(net),
        Read::OfRegister(register) => {
            let register = register as usize;
            if register < registers.len() {
                Var::Reg(registers[register])
            } else {
                Var::Reg(0)
            }
        }
    }
}

/// The variables of these nodes.
pub(crate) fn variables_by_rank(
    alloc: Global,
    nodes: &[Read],
    registers: &[u32],
) -> Result<Items<Var>, NoMemory>
    ensures { IfOk result (λ variables. variables ≡ map (var_by registers.now) nodes.now) }
{
    let mut variables = Vec::with_capacity(alloc, nodes.len())?;
    for node in nodes {
        variables.push(variable(*node, registers))?;
    }
    Ok(Items::new(variables))
}
