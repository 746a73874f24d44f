//! The levels of a board as functions of its stored and handed levels.
#![tactic(auto)]

ghost use Rattle.std.specs.Prelude.{◌≡◌, length, IfOk};
ghost use Rattle.bdd.specs.Diagram.{IsCanonical, Keeps};
ghost use Rattle.board.specs.Joined.{equations_of};
ghost use Rattle.rails.specs.Variables.{IsFit};
ghost use Rattle.reckoning.specs.Whole.{HasTriples};
ghost use Rattle.reckoned.specs.Variables.{AreVariables, port_variables as port_variables_of};
ghost use Rattle.reckoned.specs.Reckoned.{IsReckonedBoard, SaySettled};

mod triples;
mod variables;

use crate::triples::triples_of;
use crate::variables::{port_variables, push_registers};
use bdd::NoNode;
use board::Board;
use mig_base::{Items, NoMemory};
use rails::Rails;
use reckoning::{Three, Triples, settled_triples};
use std::alloc::Global;

/// The levels of a board as functions: of the nets by number, of the drives by unit, and by register of the visible Qs and of
/// what each register takes where its clock rises. The variables are the handed levels of the Input ports, which are pure,
/// and of the Both ports, which are not, and the stored levels of the registers. A point has both Booleans of an X or a Z
/// false.
#[derive(Drop)]
pub struct Reckoned {
    pub rails: Rails,
    pub nets: Items<Three>,
    pub drives: Items<Three>,
    pub visible: Items<Three>,
    pub next: Items<Three>,
}

/// The triples of a board, over the variables of these rails, of which the first `ports` are handed levels.
fn over_rails(
    alloc: Global,
    b: &Board,
    rails: &mut Rails,
    ports: usize,
) -> Result<Triples, NoMemory>
    requires fit { IsFit rails.old }
    requires variables { AreVariables b.now rails.old.vars }
    requires ports { ports ≡ length (port_variables_of 0 (equations_of b.now).nets) }
    ensures vars { rails.new.vars ≡ rails.old.vars }
    ensures keeps { Keeps rails.old.graph rails.new.graph }
    ensures canonical { IsCanonical rails.new.graph }
    ensures triples { IfOk result (HasTriples rails.new.graph (equations_of b.now)) }
    ensures says { IfOk result (SaySettled b.now rails.old.vars rails.new.graph) }
{
    let given = triples_of(alloc, rails)?;
    let (handed, stored) = given.as_slice().split_at(ports);
    let circuit = b.circuit();
    let order = b.order();
    let made = settled_triples(alloc, rails.graph(), circuit, order, stored, handed);
    match made {
        Ok(triples) => Ok(triples),
        Err(NoNode) => Err(NoMemory),
    }
}

/// The levels of a board as functions of its stored and handed levels. Only want of memory refuses it.
pub fn reckon(alloc: Global, b: &Board) -> Result<Reckoned, NoMemory>
    ensures { IfOk result (IsReckonedBoard b.now) }
{
    let _wiring = b.net();
    let mut vars = port_variables(alloc, b.circuit().nets.items())?;
    let ports = vars.len();
    push_registers(&mut vars, b)?;
    let mut rails = Rails::new(alloc, vars)?;
    let triples = over_rails(alloc, b, &mut rails, ports)?;
    Ok(Reckoned {
        rails,
        nets: triples.nets,
        drives: triples.drives,
        visible: triples.visible,
        next: triples.next,
    })
}
