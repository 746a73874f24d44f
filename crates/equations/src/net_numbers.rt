ghost use Rattle.std.specs.Prelude.{ℕ, ◌≡◌, ◌<◌, ◌≤◌, ◌+◌, ◌^◌, ◌++◌, ◌&&◌, is_none, map, filter, length, IfOk, OnOk};
ghost use Rattle.mig_base.specs.DeviceTables.{is_ordinary, ordinary_pins};
ghost use Rattle.mig_base.specs.Boards.{line_at, place_of, pins_from, privates, net_of};
ghost use Rattle.equations.specs.Tables.{IsTable};

use crate::pin_table::PinTable;
use mig_base::{ChipLine, Kind, Net, NetLine, NoMemory, PinLine, pins};
use std::alloc::Global;
use std::marker::Model;

/// A pin of a chip, by numbers.
pub type At = (u32, u8);

/// The net of each pin's line.
fn line_table(
    alloc: Global,
    chips: usize,
    lines: &[PinLine],
) -> Result<PinTable<Option<u32>>, NoMemory>
    requires { chips ≤ 64 }
    ensures { IfOk result (IsTable (line_at lines.now) chips) }
{
    let mut table = PinTable::new(alloc, chips, None)?;
    for place in (0..lines.len()).rev() {
        let PinLine { chip, pin, net } = lines[place];
        table.set(chip, pin, Some(net));
    }
    Ok(table)
}

/// The place of each pin in a list, counted from `first` on; that of a pin that is not in the list is the list's end.
pub(crate) fn place_table(
    alloc: Global,
    chips: usize,
    listed: &[At],
    first: u32,
) -> Result<PinTable<u32>, NoMemory>
    requires chips { chips ≤ 64 }
    requires numbers { first + length listed.now < 2 ^ 32 }
    ensures { IfOk result (IsTable (λ q. first + place_of q listed.now) chips) }
{
    let mut table = PinTable::new(alloc, chips, first + listed.len() as u32)?;
    for place in (0..listed.len()).rev() {
        let (chip, pin) = listed[place];
        table.set(chip, pin, first + place as u32);
    }
    Ok(table)
}

/// The wiring of a board, with the net of each pin's line.
#[derive(Drop)]
pub(crate) struct Lines<'a> {
    net: &'a Net,
    table: PinTable<Option<u32>>,
}

impl<'a> Model for Lines<'a> {
    ghost use Rattle.std.specs.Prelude.{length};
    ghost use Rattle.mig_base.specs.declared.nets.Net.{Net};
    ghost use Rattle.mig_base.specs.Boards.{line_at};
    ghost use Rattle.equations.specs.Tables.{IsTable};

    ghost Value = { Net };

    ghost view = { λ lines. lines.net.now };

    ghost invariant = { λ lines. IsTable (line_at lines.net.now.pins) (length lines.net.now.chips) lines.table };
}

impl<'a> Lines<'a> {
    pub(crate) fn new(alloc: Global, net: &'a Net) -> Result<Lines<'a>, NoMemory>
        requires { length net.now.chips ≤ 64 }
        ensures { IfOk result (λ lines. lines ≡ net.now) }
    {
        let table = line_table(alloc, net.chips.items().len(), net.pins.items())?;
        Ok(Lines { net, table })
    }

    /// The named nets, in the order of their lines.
    fn named(&self) -> &[NetLine]
        ensures { result.now ≡ self.now.nets }
    {
        self.net.nets.items()
    }

    /// The chips, in the order of their lines.
    fn chips(&self) -> &[ChipLine]
        ensures { result.now ≡ self.now.chips }
    {
        self.net.chips.items()
    }

    /// The net of a pin's line.
    pub(crate) fn at(&self, chip: u32, pin: u8) -> Option<u32>
        requires { chip < length self.now.chips }
        ensures { result ≡ line_at self.now.pins (chip, pin) }
    {
        self.table.at(chip, pin)
    }

    /// Whether a pin has no line, and is neither ground nor power.
    fn is_private(&self, chip: u32, kind: Kind, pin: u8) -> bool
        requires { chip < length self.now.chips }
        ensures { result ≡ is_ordinary kind pin && is_none (line_at self.now.pins (chip, pin)) }
    {
        pin != pins(kind) / 2 && pin != pins(kind) && self.at(chip, pin).is_none()
    }
}

/// Adds the pins of a chip that have no line, but for ground and power.
fn push_privates(
    chip: u32,
    kind: Kind,
    lines: &Lines,
    privates: &mut Vec<At>,
) -> Result<(), NoMemory>
    requires { chip < length lines.now.chips }
    ensures { OnOk result (privates.new.items ≡ privates.old.items ++
        filter (λ q. is_none (line_at lines.now.pins q)) (map (λ p. (chip, p)) (ordinary_pins kind))) }
{
    for pin in 1..pins(kind) + 1 {
        if lines.is_private(chip, kind, pin) {
            privates.push((chip, pin))?;
        }
    }
    Ok(())
}

/// The pins that have a private net, by chip and pin.
fn privates_of(alloc: Global, lines: &Lines) -> Result<Vec<At>, NoMemory>
    requires { length lines.now.chips ≤ 64 }
    ensures { IfOk result (λ pins. pins.items ≡ privates lines.now) }
{
    let mut privates = Vec::new(alloc);
    for (chip, line) in lines.chips().iter().enumerate() {
        push_privates(chip as u32, line.kind, lines, &mut privates)?;
    }
    Ok(privates)
}

/// The wiring of a board, with the number of each pin's net.
#[derive(Drop)]
pub struct NetNumbers<'a> {
    lines: Lines<'a>,
    unwired: Vec<At>,
    places: PinTable<u32>,
}

impl<'a> Model for NetNumbers<'a> {
    ghost use Rattle.mig_base.specs.declared.nets.Net.{Net};
    ghost use Rattle.equations.specs.Tables.{NumbersPrivates};

    ghost Value = { Net };

    ghost view = { λ numbers. numbers.lines };

    ghost invariant = { λ numbers. NumbersPrivates numbers.lines numbers.unwired.items numbers.places };
}

impl<'a> NetNumbers<'a> {
    pub fn new(alloc: Global, net: &'a Net) -> Result<NetNumbers<'a>, NoMemory>
        requires nets { length net.now.nets ≤ 1024 }
        requires chips { length net.now.chips ≤ 64 }
        ensures { IfOk result (λ numbers. numbers ≡ net.now) }
    {
        let lines = Lines::new(alloc, net)?;
        let unwired = privates_of(alloc, &lines)?;
        let first = 2 + net.nets.items().len() as u32;
        let places = place_table(alloc, net.chips.items().len(), unwired.as_slice(), first)?;
        Ok(NetNumbers {
            lines,
            unwired,
            places,
        })
    }

    /// The net of a pin.
    pub fn net_of(&self, chip: u32, pin: u8) -> u32
        requires { chip < length self.now.chips }
        ensures { result ≡ net_of self.now (chip, pin) }
    {
        match self.lines.at(chip, pin) {
            Some(net) => net,
            None => self.places.at(chip, pin),
        }
    }

    /// The named nets, in the order of their lines.
    pub(crate) fn named(&self) -> &[NetLine]
        ensures { result.now ≡ self.now.nets }
    {
        self.lines.named()
    }

    /// The pins with a private net, by chip and pin.
    pub fn privates(&self) -> &[At]
        ensures { result.now ≡ privates self.now }
    {
        self.unwired.as_slice()
    }

    /// The number of private nets.
    pub fn private_nets(&self) -> usize
        ensures { result ≡ length (privates self.now) }
    {
        self.unwired.len()
    }
}
