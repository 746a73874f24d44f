ghost use Rattle.std.specs.Prelude.{◌≡◌, ◌≤◌, ◌++◌, ◌||◌, map, filter, length, IfOk, OnOk};
ghost use Rattle.std.specs.List.{list_any};
ghost use Rattle.mig_base.specs.Boards.{ChipUnit, reads_register, in_row as row_reads, in_enable as enable_reads, in_cell as cell_reads, is_mute as mute, is_unit as gives_unit, units_from, at_of, registers_of, is_registered as has_register};

use crate::net_numbers::At;
use mig_base::{Cell, ChipCells, Enable, Form, Lit, NoMemory, Product, Row, Source, is_22};
use std::alloc::Global;
use std::marker::Model;

/// A cell that is a unit of its board, with its chip.
#[derive(Drop)]
pub struct BoardUnit<'a> {
    pub chip: u32,
    pub cells: &'a ChipCells,
    pub cell: &'a Cell,
}

impl<'a> Model for BoardUnit<'a> {
    ghost use Rattle.mig_base.specs.Boards.{ChipUnit};

    ghost Value = { ChipUnit };

    ghost view = { λ u. record { chip = u.chip; cells = u.cells.now; cell = u.cell.now } };
}

impl<'a> BoardUnit<'a> {
    /// The chip and the pin of the unit.
    pub fn at(&self) -> At
        ensures { result ≡ at_of self.now }
    {
        (self.chip, self.cell.pin)
    }

    /// Whether the unit has a register.
    pub fn is_registered(&self) -> bool
        ensures { result ≡ has_register self.now }
    {
        matches!(self.cell.form, Form::Reg)
    }
}

/// The pins of the registers of these units.
pub(crate) fn register_pins(alloc: Global, units: &[BoardUnit]) -> Result<Vec<At>, NoMemory>
    ensures { IfOk result (λ pins. pins.items ≡ map at_of (registers_of units.now)) }
{
    let mut pins = Vec::new(alloc);
    for unit in units {
        if unit.is_registered() {
            pins.push(unit.at())?;
        }
    }
    Ok(pins)
}

/// Whether a product reads the register of this pin.
fn reads(pin: u8, lits: &[Lit]) -> bool
    ensures { result ≡ list_any (reads_register pin) lits.now }
{
    lits.iter().any(|lit| lit.source == Source::Reg(pin))
}

/// Whether a row reads the register of this pin.
fn in_row(pin: u8, row: &Row) -> bool
    ensures { result ≡ row_reads pin row.now }
{
    match row {
        Row::Never => false,
        Row::Product(product) => reads(pin, product.items()),
    }
}

/// Whether an enable reads the register of this pin.
fn in_enable(pin: u8, enable: &Enable) -> bool
    ensures { result ≡ enable_reads pin enable.now }
{
    match enable {
        Enable::Term(product) => reads(pin, product.items()),
        _ => false,
    }
}

/// Whether one of these terms reads the register of this pin.
fn in_terms(pin: u8, terms: &[Product]) -> bool
    ensures { result ≡ list_any (λ lits. list_any (reads_register pin) lits) terms.now }
{
    terms.iter().any(|term| reads(pin, term.items()))
}

/// Whether a cell reads the register of this pin.
fn in_cell(pin: u8, cell: &Cell) -> bool
    ensures { result ≡ cell_reads pin cell.now }
{
    in_enable(pin, &cell.enable) || in_terms(pin, cell.terms.items())
}

/// Whether one of these cells reads the register of this pin.
fn in_cells(pin: u8, cells: &[Cell]) -> bool
    ensures { result ≡ list_any (cell_reads pin) cells.now }
{
    cells.iter().any(|cell| in_cell(pin, cell))
}

/// Whether a registered cell can change no pin, and nothing on its chip reads it.
fn is_mute(chip: &ChipCells, cell: &Cell) -> bool
    ensures { result ≡ mute chip.now cell.now }
{
    is_22(chip.kind)
        && matches!(cell.enable, Enable::Never)
        && !(in_cells(cell.pin, chip.cells.items())
            || in_row(cell.pin, &chip.reset)
            || in_row(cell.pin, &chip.preset))
}

/// Whether a cell is a unit: neither idle nor mute.
pub fn is_unit(chip: &ChipCells, cell: &Cell) -> bool
    ensures { result ≡ gives_unit chip.now cell.now }
{
    match cell.form {
        Form::Idle => false,
        Form::Comb => true,
        Form::Reg => !is_mute(chip, cell),
    }
}

/// Adds the units of a chip.
fn push_units<'a>(
    chip: u32,
    cells: &'a ChipCells,
    units: &mut Vec<BoardUnit<'a>>,
) -> Result<(), NoMemory>
    ensures { OnOk result (units.new.items ≡ units.old.items ++ map (λ cell. record { chip = chip; cells = cells.now; cell = cell }) (filter (gives_unit cells.now) cells.now.cells)) }
{
    for cell in cells.cells.items() {
        if is_unit(cells, cell) {
            units.push(BoardUnit { chip, cells, cell })?;
        }
    }
    Ok(())
}

/// The units of a board, by chip and pin.
pub fn units_of(alloc: Global, chips: &[ChipCells]) -> Result<Vec<BoardUnit<'_>>, NoMemory>
    requires { length chips.now ≤ 64 }
    ensures { IfOk result (λ units. units.items ≡ units_from 0 chips.now) }
{
    let mut units = Vec::new(alloc);
    for (chip, cells) in chips.iter().enumerate() {
        push_units(chip as u32, cells, &mut units)?;
    }
    Ok(units)
}
