ghost use Rattle.std.specs.Prelude.{◌≡◌, ◌++◌, IfOk, OnOk};
ghost use Rattle.mig_base.specs.First.{made_from};
ghost use Rattle.mig_base.specs.Structure.{all_variables as variables_all};

use mig_base::{Circuit, NoMemory, Read};
use std::alloc::Global;

/// Adds so many nets.
fn push_nets(variables: &mut Vec<Read>, nets: u32) -> Result<(), NoMemory>
    ensures { OnOk result (variables.new.items ≡ variables.old.items ++ made_from Read.OfNet 0 nets) }
{
    for net in 0..nets {
        variables.push(Read::OfNet(net))?;
    }
    Ok(())
}

/// Adds so many registers.
fn push_registers(variables: &mut Vec<Read>, registers: u32) -> Result<(), NoMemory>
    ensures { OnOk result (variables.new.items ≡ variables.old.items ++ made_from Read.OfRegister 0 registers) }
{
    for register in 0..registers {
        variables.push(Read::OfRegister(register))?;
    }
    Ok(())
}

/// The nets and then the registers of a board. Its numbers fit, else memory would not hold it.
pub fn all_variables(alloc: Global, circuit: &Circuit) -> Result<Vec<Read>, NoMemory>
    ensures { IfOk result (λ variables. variables.items ≡ variables_all circuit.now) }
{
    let (nets, registers) = (circuit.nets.items().len(), circuit.registers.items().len());
    if nets > u32::MAX as usize || registers > u32::MAX as usize {
        return Err(NoMemory);
    }
    let mut variables = Vec::new(alloc);
    push_nets(&mut variables, nets as u32)?;
    push_registers(&mut variables, registers as u32)?;
    Ok(variables)
}
