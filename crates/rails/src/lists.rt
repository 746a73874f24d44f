//! The list of the Booleans of some variables.
ghost use Rattle.std.specs.Prelude.{◌≡◌, ◌++◌, ◌<◌, ◌^◌, length, IfOk};
ghost use Rattle.rails.specs.Variables.{all_rails as rails_in, rails_of};

use crate::{Rail, Side};
use mig_base::{NoMemory, Var};
use std::alloc::Global;

/// The Booleans of these variables, in their order.
pub(crate) fn all_rails(alloc: Global, vars: &[(Var, bool)]) -> Result<Vec<Rail>, NoMemory>
    requires { length vars.now < 2 ^ 31 }
    ensures { IfOk result (λ rails. rails.items ≡ rails_in vars.now) }
{
    let mut rails = Vec::new(alloc);
    for i in 0..vars.len() {
        push_rails(&mut rails, i as u32, vars[i])?;
    }
    Ok(rails)
}

/// Puts the Booleans of the variable of number `variable` to the others.
fn push_rails(rails: &mut Vec<Rail>, variable: u32, named: (Var, bool)) -> Result<(), NoMemory>
    ensures { IfOk result (λ _. rails.new.items ≡ rails.old.items ++ rails_of variable named) }
{
    let (var, is_pure) = named;
    if is_pure {
        rails.push(Rail {
            var,
            variable,
            side: Side::Pure,
        })?;
        return Ok(());
    }
    rails.push(Rail {
        var,
        variable,
        side: Side::High,
    })?;
    rails.push(Rail {
        var,
        variable,
        side: Side::Low,
    })?;
    Ok(())
}
