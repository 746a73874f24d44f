//! The drives of all units, and what all registers take where their clocks rise.
ghost use Rattle.std.specs.Prelude.{◌≡◌, false, IfOk};
ghost use Rattle.bdd.specs.Tree.{Point};
ghost use Rattle.bdd.specs.Diagram.{Diagram, IsCanonical, IsConstant, Keeps};
ghost use Rattle.mig_base.specs.declared.levels.Level.{Level as LevelOf};
ghost use Rattle.mig_base.specs.Reads.{edge_reads};
ghost use Rattle.mig_base.specs.Values.{inverted as inverted_if};
ghost use Rattle.level_laws.specs.Runs.{taken as level_taken};
ghost use Rattle.reckoning.specs.Triples.{IsValue, Means, NeverFloat};
ghost use Rattle.reckoning.specs.Tables.{IsTable, IsTripleOf};
ghost use Rattle.reckoning.specs.Made.{AreDrives, AreTaken};

use crate::logic::{both, drive, either, row, sum};
use crate::triples::{Table, Three, Value};
use bdd::{Graph, NoNode};
use mig_base::{Circuit, Register};
use std::alloc::Global;

/// The triples of the drives of all units, by unit, from those of all nodes. A unit that is no driver drives Z.
pub fn drives(
    alloc: Global,
    graph: &mut Graph,
    circuit: &Circuit,
    table: &Table,
) -> Result<Vec<Three>, NoNode>
    requires { IsTable graph.old table.now }
    ensures keeps { Keeps graph.old graph.new }
    ensures canonical { IsCanonical graph.new }
    ensures drives { IfOk result (λ made. AreDrives graph.old graph.new circuit.now table.now made.items) }
{
    let _count = graph.vars();
    let mut made = Vec::new(alloc);
    let units = circuit.units.items();
    for unit in units {
        let three = drive(graph, table, unit)?;
        made.push(three)?;
    }
    Ok(made)
}

/// NOT where it is low.
fn inverted(low: bool, value: Value) -> Value
    ensures valid { (d : Diagram) → IsValue d value → IsValue d result }
    ensures means { (d : Diagram) (p : Point) (level : LevelOf) → Means d value p level → Means d result p (inverted_if low level) }
{
    if low {
        Value {
            one: value.zero,
            zero: value.one,
        }
    } else {
        value
    }
}

/// The triple of what a register takes where its clock rises.
fn taken(graph: &mut Graph, table: &Table, register: &Register) -> Result<Three, NoNode>
    requires { IsTable graph.old table.now }
    ensures keeps { Keeps graph.old graph.new }
    ensures canonical { IsCanonical graph.new }
    ensures known { IfOk result (λ three. IsConstant graph.new false three.float) }
    ensures triple { IfOk result (IsTripleOf graph.old graph.new table.now (edge_reads register.now) (λ l. level_taken l register.now)) }
{
    let terms = sum(graph, table, register.terms.items())?;
    let preset = row(graph, table, &register.preset)?;
    let reset = row(graph, table, &register.reset)?;
    let level = either(graph, inverted(register.low, terms), preset)?;
    let level = both(graph, level, inverted(true, reset))?;
    let float = graph.constant(false);
    Ok(Three {
        one: level.one,
        zero: level.zero,
        float,
    })
}

/// The triples of what all registers take where their clocks rise, by register, from those of all nodes.
pub fn next(
    alloc: Global,
    graph: &mut Graph,
    circuit: &Circuit,
    table: &Table,
) -> Result<Vec<Three>, NoNode>
    requires { IsTable graph.old table.now }
    ensures keeps { Keeps graph.old graph.new }
    ensures canonical { IsCanonical graph.new }
    ensures known { IfOk result (λ made. NeverFloat graph.new made.items) }
    ensures taken { IfOk result (λ made. AreTaken graph.old graph.new circuit.now table.now made.items) }
{
    let _count = graph.vars();
    let mut made = Vec::new(alloc);
    let registers = circuit.registers.items();
    for register in registers {
        let three = taken(graph, table, register)?;
        made.push(three)?;
    }
    Ok(made)
}
