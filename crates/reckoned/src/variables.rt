//! The variables of a board's levels, each with whether it is pure.
ghost use Rattle.std.specs.Prelude.{◌≡◌, ◌++◌, ◌<◌, ◌^◌, length, IfOk, OnOk};
ghost use Rattle.board.specs.UnitLists.{register_units};
ghost use Rattle.reckoned.specs.Variables.{port_variable, port_variables as ports_of, IsExtended};

use board::Board;
use mig_base::{NetKind, NoMemory, Var, Wire};
use std::alloc::Global;

/// Adds a net that is an Input port, which is pure, or a Both port, which is not.
fn push_port(vars: &mut Vec<(Var, bool)>, net: u32, kind: NetKind) -> Result<(), NoMemory>
    ensures { IfOk result (λ _. vars.new.items ≡ vars.old.items ++ port_variable net kind) }
{
    match kind {
        NetKind::Handed(_) => {
            vars.push((Var::Net(net), true))?;
            Ok(())
        }
        NetKind::Shared(_) => {
            vars.push((Var::Net(net), false))?;
            Ok(())
        }
        NetKind::Ground | NetKind::Power | NetKind::Inner => Ok(()),
    }
}

/// The nets of the Input and Both ports, by number.
pub(crate) fn port_variables(alloc: Global, nets: &[Wire]) -> Result<Vec<(Var, bool)>, NoMemory>
    requires { length nets.now < 2 ^ 32 }
    ensures { IfOk result (λ vars. vars.items ≡ ports_of 0 nets.now) }
{
    let mut vars = Vec::new(alloc);
    for n in 0..nets.len() {
        push_port(&mut vars, n as u32, nets[n].kind)?;
    }
    Ok(vars)
}

/// Adds the registers, by the numbers of their units.
pub(crate) fn push_registers(vars: &mut Vec<(Var, bool)>, b: &Board) -> Result<(), NoMemory>
    ensures { OnOk result (IsExtended b.now (register_units b.now.chips) vars.old.items vars.new.items) }
{
    let registers = b.registers();
    for unit in registers {
        let var = Var::Reg(*unit);
        vars.push((var, b.is_pure(var)))?;
    }
    Ok(())
}
