ghost use Rattle.std.specs.Prelude.{◌≡◌, map, None, IfOk, IfErr};
ghost use Rattle.std.specs.List.{All, filter_map};
ghost use Rattle.std.specs.Option.{option_map};
ghost use Rattle.board.specs.Variables.{IsVariable, read_of, var_of};
ghost use Rattle.avail.specs.ServedVariables.{first_unserved_by};
ghost use Rattle.avail.specs.Needs.{board_of, need_chip, first_left as left_first, column_at, input_wire as input_wire_of, input_wires as wires_of_inputs, need_wires, need_columns, IsFound, RefusesNeed};

use crate::chip_nets::{ChipNets, reading_pin};
use crate::needs::{AvailError, ChipNeed, PinReads, VarPin, bare_chip};
use crate::old_board::Old;
use crate::planned::PlannedChip;
use crate::taking::{Taken, input_at, is_served, pins_for};
use board::Board;
use devices::ordinary_pins;
use mig_base::{Items, NoMemory, Read, Var};
use new_board::PinNet;
use std::alloc::Global;

/// What is found for a need: what the pins read, or the first variable that no column reads.
#[derive(Drop)]
pub(crate) enum Found {
    Reads(PinReads),
    Without(Var),
}

/// The nodes of variables.
fn reads_of(alloc: Global, board: &Board, vars: &[Var]) -> Result<Vec<Read>, NoMemory>
    requires { All (IsVariable board.now) vars.now }
    ensures { IfOk result (λ reads. reads.items ≡ map (read_of board.now.chips) vars.now) }
{
    let mut reads = Vec::new(alloc);
    for var in vars {
        reads.push(board.read(*var))?;
    }
    Ok(reads)
}

/// The first of these variables that is not read where these are the input pins.
fn first_left(board: &Board, nets: &ChipNets, taken: &[Taken], vars: &[Var]) -> Option<Var>
    requires { All (IsVariable board.now) vars.now }
    ensures { result ≡ option_map (var_of board.now.chips) (first_unserved_by nets.now.old.now nets.now.chip.now taken.now (map (read_of board.now.chips) vars.now)) }
{
    for var in vars {
        if !is_served(nets, taken, board.read(*var)) {
            return Some(*var);
        }
    }
    None
}

/// The line of an input pin, if it has one.
fn input_wire(old: &Old, taken: &[Taken], pin: u8) -> Option<PinNet>
    ensures { result ≡ input_wire_of old.now taken.now pin }
{
    let net = old.wire_for(input_at(taken, pin)?);
    old.wire_at(pin, net)
}

/// The lines of the input pins, rising.
fn input_wires(alloc: Global, nets: &ChipNets, taken: &[Taken]) -> Result<Items<PinNet>, NoMemory>
    ensures { IfOk result (λ wires. wires ≡ wires_of_inputs nets.now.old.now nets.now.chip.now taken.now) }
{
    let chip = nets.chip;
    let mut wires = Vec::new(alloc);
    for pin in ordinary_pins(chip.kind) {
        if let Some(wire) = input_wire(nets.old, taken, *pin) {
            wires.push(wire)?;
        }
    }
    Ok(Items::new(wires))
}

/// A variable with the pin whose columns read it, if there is one.
fn column_of(board: &Board, nets: &ChipNets, taken: &[Taken], var: Var) -> Option<VarPin>
    requires { IsVariable board.now var }
    ensures { result ≡ column_at board.now nets.now.old.now nets.now.chip.now taken.now var }
{
    let pin = reading_pin(nets, taken, board.read(var))?;
    Some(VarPin { var, pin })
}

/// Those of variables, in their order.
fn columns_of(
    alloc: Global,
    board: &Board,
    nets: &ChipNets,
    taken: &[Taken],
    vars: &[Var],
) -> Result<Items<VarPin>, NoMemory>
    requires { All (IsVariable board.now) vars.now }
    ensures { IfOk result (λ columns. columns ≡ filter_map (column_at board.now nets.now.old.now nets.now.chip.now taken.now) vars.now) }
{
    let mut columns = Vec::new(alloc);
    for var in vars {
        if let Some(column) = column_of(board, nets, taken, *var) {
            columns.push(column)?;
        }
    }
    Ok(Items::new(columns))
}

/// What is found for these variables on a chip.
fn find_on(alloc: Global, board: &Board, nets: &ChipNets, vars: &[Var]) -> Result<Found, NoMemory>
    requires { All (IsVariable board.now) vars.now }
    ensures { IfOk result (IsFound board.now nets.now.old.now nets.now.chip.now vars.now) }
{
    let reads = reads_of(alloc, board, vars)?;
    let taken = pins_for(alloc, nets, reads.as_slice())?;
    if let Some(var) = first_left(board, nets, taken.as_slice(), vars) {
        return Ok(Found::Without(var));
    }
    let wires = input_wires(alloc, nets, taken.as_slice())?;
    let columns = columns_of(alloc, board, nets, taken.as_slice(), vars)?;
    Ok(Found::Reads(PinReads { wires, columns }))
}

fn find_on_chip(
    alloc: Global,
    board: &Board,
    old: &Old,
    chip: &PlannedChip,
    vars: &[Var],
) -> Result<Found, NoMemory>
    requires { All (IsVariable board.now) vars.now }
    ensures { IfOk result (IsFound board.now old.now chip.now vars.now) }
{
    let nets = ChipNets::new(old, chip);
    find_on(alloc, board, &nets, vars)
}

/// What is found for a need.
fn find_reads(alloc: Global, board: &Board, need: &ChipNeed) -> Result<Found, NoMemory>
    requires { All (IsVariable board.now) need.now.vars }
    ensures { IfOk result (IsFound board.now (board_of board.now) (need_chip need.now) need.now.vars) }
{
    let old = Old::of_board(alloc, board)?;
    let chip = bare_chip(alloc, need)?;
    find_on_chip(alloc, board, &old, &chip, need.vars.items())
}

/// The input pins of a new chip for the variables that its rows need. `NoInput` names the first one that no column reads:
/// it gets no pin, or can't be wired.
pub fn inputs(alloc: Global, board: &Board, need: &ChipNeed) -> Result<PinReads, AvailError>
    requires { All (IsVariable board.now) need.now.vars }
    ensures served { IfOk result (λ reads. left_first board.now need.now ≡ None) }
    ensures wires { IfOk result (λ reads. reads.wires ≡ need_wires board.now need.now) }
    ensures columns { IfOk result (λ reads. reads.columns ≡ need_columns board.now need.now) }
    ensures refused { IfErr result (RefusesNeed board.now need.now) }
{
    match find_reads(alloc, board, need) {
        Ok(Found::Reads(reads)) => Ok(reads),
        Ok(Found::Without(var)) => Err(AvailError::NoInput { var }),
        Err(NoMemory) => Err(AvailError::Memory),
    }
}
