//! A board of wiring and chips, joined: its equations, its units, the names of its nodes, and their ranks.
#![tactic(auto)]

mod accessors;
mod by_rank;
mod checks;
mod driven;
mod names;
mod notions;
mod pin_nets;
mod tables;
mod unit_lists;

ghost use Rattle.std.specs.Prelude.{◌≡◌, List, IfOk, IfErr};
ghost use Rattle.mig_base.specs.Accepted.{IsAccepted};
ghost use Rattle.mig_base.specs.Boards.{circuit};
ghost use Rattle.mig_base.specs.Given.{IsGiven};
ghost use Rattle.mig_base.specs.declared.cells.ChipCells.{ChipCells as CellsOf};
ghost use Rattle.mig_base.specs.declared.nets.BoardError.{BoardError as Refusal};
ghost use Rattle.mig_base.specs.declared.nets.BoardError.TheVariants.{Memory};
ghost use Rattle.mig_base.specs.declared.nets.Net.{Net as Wiring};
ghost use Rattle.board.specs.Built.{IsTables};
ghost use Rattle.board.specs.Refusals.{RefusesBoard};

use crate::by_rank::variables_by_rank;
use crate::checks::check;
use crate::tables::Tables;
pub use driven::{unit_drives_net_of_pin, unit_drives_one_net};
use equations::{Parts, circuit_of};
use mig_base::{BoardError, ChipCells, Circuit, Enable, Items, Net, NoMemory, PinName, Var};
use ranks::Ranks;
use std::alloc::Global;
use std::marker::Model;
use structure::{Structure, structure_of};

/// A unit of a board: its pin, its chip's number, the place of its cell on the chip, whether it has a register,
/// the net of its pin, and the net of its clock, which is 0 where it has no register.
#[derive(Clone, Copy)]
pub struct Unit {
    pub name: PinName,
    pub chip: u32,
    pub cell: u32,
    pub registered: bool,
    pub net: u32,
    pub clock: u32,
}

/// A board of wiring and chips that is accepted, with all that is looked up of it.
#[derive(Drop)]
pub struct Board {
    net: Net,
    chips: Items<ChipCells>,
    circuit: Circuit,
    ranks: Ranks,
    tables: Tables,
    by_rank: Items<Var>,
    structure: Structure,
    always: Enable,
    never: Enable,
}

impl Model for Board {
    ghost use Rattle.board.specs.Joined.{Joined};
    ghost use Rattle.board.specs.Built.{IsBuilt};

    ghost Value = { Joined };

    ghost view = { λ b. record { net = b.net; chips = b.chips } };

    ghost invariant = { λ b. IsBuilt b.net b.chips b.circuit b.ranks b.tables b.by_rank b.structure b.always b.never };
}

/// The equations and the tables of a board, from parts that are made once.
fn converted(alloc: Global, net: &Net, chips: &[ChipCells]) -> Result<(Circuit, Tables), NoMemory>
    requires { IsGiven net.now chips.now }
    ensures circuit { IfOk result (λ made. made.0 ≡ circuit net.now chips.now) }
    ensures tables { IfOk result (λ made. IsTables net.now chips.now made.1) }
{
    let parts = Parts::new(alloc, net, chips)?;
    let circuit = circuit_of(alloc, &parts)?;
    let tables = Tables::new(alloc, &parts)?;
    Ok((circuit, tables))
}

impl Board {
    /// The board of a wiring that a text can give and, for each chip line, the cells that some fuses make. A refused board's wiring
    /// and chips are dropped.
    pub fn join(alloc: Global, net: Net, chips: Vec<ChipCells>) -> Result<Board, BoardError>
        requires { IsGiven net chips.items }
        ensures net { IfOk result (λ board. board.net ≡ net) }
        ensures chips { IfOk result (λ board. board.chips ≡ chips.items) }
        ensures accepted { IfOk result (λ board. IsAccepted (circuit net chips.items)) }
        ensures refused { IfErr result (RefusesBoard net chips.items) }
    {
        let (circuit, tables) = converted(alloc, &net, chips.as_slice())?;
        let ranks = check(alloc, &circuit, &tables)?;
        let by_rank = variables_by_rank(alloc, ranks.order.items(), tables.registers.items())?;
        let structure = structure_of(alloc, &circuit, tables.registers.items())?;
        Ok(Board {
            net,
            chips: Items::new(chips),
            circuit,
            ranks,
            tables,
            by_rank,
            structure,
            always: Enable::Always,
            never: Enable::Never,
        })
    }
}

/// A wiring and chips whose equations are accepted are refused for want of memory alone.
pub fn accepted_is_not_refused()
    ensures { (net : Wiring) (chips : List CellsOf) (e : Refusal) → IsAccepted (circuit net chips) → RefusesBoard net chips e → e ≡ Memory }
{}
