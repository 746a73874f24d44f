ghost use Rattle.std.specs.Prelude.{◌≡◌, true, false, length, Some};
ghost use Rattle.level_laws.specs.Settled.{IsSettled};
ghost use Rattle.level_laws.specs.Runs.{IsStep};
ghost use Rattle.ranks.specs.Order.{IsOrder};
ghost use Rattle.settle.specs.Configs.{IsMadeFor, handed_count as count_of_handed, last_of};

use crate::config::Config;
use crate::edges::store_next;
use crate::evaluating::settle_circuit;
use crate::inputs::mark_inputs;
use crate::marked::settle_marked;
use mig_base::{Circuit, Items, Level, Read};

/// Copies levels into a list of the same length.
fn copy(from: &[Level], to: &mut Items<Level>)
    requires { length to.old ≡ length from.now }
    ensures { to.new ≡ from.now }
{
    for place in 0..from.len() {
        to.set(place, from[place]);
    }
}

/// The first step, which only sets the inputs.
fn begin(circuit: &Circuit, order: &[Read], config: &mut Config, inputs: &[Level])
    requires first { config.old.stepped ≡ false }
    requires order { IsOrder circuit.now order.now }
    requires made { IsMadeFor circuit.now config.old }
    requires inputs { length inputs.now ≡ count_of_handed circuit.now }
    ensures made { IsMadeFor circuit.now config.new }
    ensures step { IsStep circuit.now config.old.stored (last_of config.old) inputs.now config.new.stored }
    ensures last { last_of config.new ≡ Some inputs.now }
    ensures settled { IsSettled circuit.now config.new.stored inputs.now config.new.levels }
{
    copy(inputs, &mut config.last);
    config.stepped = true;
    settle_circuit(
        circuit,
        order,
        config.stored.items(),
        inputs,
        &mut config.levels,
    );
}

/// A step after another one: each register whose clock rises takes what the levels before the step make of it, and every
/// other its visible Q; then what depends on what changed is settled.
fn follow(circuit: &Circuit, order: &[Read], config: &mut Config, inputs: &[Level])
    requires later { config.old.stepped ≡ true }
    requires order { IsOrder circuit.now order.now }
    requires made { IsMadeFor circuit.now config.old }
    requires inputs { length inputs.now ≡ count_of_handed circuit.now }
    ensures made { IsMadeFor circuit.now config.new }
    ensures step { IsStep circuit.now config.old.stored (last_of config.old) inputs.now config.new.stored }
    ensures last { last_of config.new ≡ Some inputs.now }
    ensures settled { IsSettled circuit.now config.new.stored inputs.now config.new.levels }
{
    store_next(
        circuit,
        &config.levels,
        config.last.items(),
        inputs,
        &mut config.stored,
        &mut config.marks,
    );
    mark_inputs(
        circuit,
        config.handed.items(),
        config.last.items(),
        inputs,
        &mut config.marks,
    );
    copy(inputs, &mut config.last);
    settle_marked(
        circuit,
        order,
        &config.readers,
        config.stored.items(),
        inputs,
        &mut config.marks,
        &mut config.levels,
    );
}

/// One step of a circuit to new inputs, one for each Input and Both port. The first step only sets the inputs. In a later one
/// each register whose clock rises takes what the levels before the step make of it, and every other its visible Q. Then
/// the levels settle. A step takes no memory.
pub(crate) fn step_circuit(circuit: &Circuit, order: &[Read], config: &mut Config, inputs: &[Level])
    requires order { IsOrder circuit.now order.now }
    requires made { IsMadeFor circuit.now config.old }
    requires inputs { length inputs.now ≡ count_of_handed circuit.now }
    ensures made { IsMadeFor circuit.now config.new }
    ensures step { IsStep circuit.now config.old.stored (last_of config.old) inputs.now config.new.stored }
    ensures last { last_of config.new ≡ Some inputs.now }
    ensures settled { IsSettled circuit.now config.new.stored inputs.now config.new.levels }
{
    if config.stepped {
        follow(circuit, order, config, inputs);
    } else {
        begin(circuit, order, config, inputs);
    }
}
