ghost use Rattle.std.specs.Prelude.{ℕ, ◌≡◌, ◌<◌, ◌≤◌, ◌+◌, ◌^◌, ◌++◌, map, length, IfOk, OnOk, IsTrue};
ghost use Rattle.std.specs.List.{All};
ghost use Rattle.mig_base.specs.Boards.{ChipUnit, place_of, at_of, registers_of, net_of, read_of, literals_of, units_from};
ghost use Rattle.equations.specs.Tables.{IsTable};

use crate::board_parts::Parts;
use crate::net_numbers::{NetNumbers, place_table};
use crate::pin_table::PinTable;
use crate::units::{BoardUnit, register_pins};
use mig_base::{Items, Lit, Literal, NoMemory, Product, Read, Source};
use std::alloc::Global;

/// The wiring and the units of a board, with the numbers of its nets and registers by pin.
#[derive(Drop)]
pub(crate) struct Numbers<'a> {
    pub nets: &'a NetNumbers<'a>,
    pub units: &'a [BoardUnit<'a>],
    registers: PinTable<u32>,
    ghost within: { All (λ (u : ChipUnit). u.chip < length nets.now.chips) units.now },
    ghost is_table: { IsTable (λ q. place_of q (map at_of (registers_of units.now))) (length nets.now.chips) registers },
}

impl<'a> Numbers<'a> {
    /// The numbers of a board of these parts.
    pub(crate) fn new(alloc: Global, parts: &'a Parts<'a>) -> Result<Numbers<'a>, NoMemory>
        ensures nets { IfOk result (λ numbers. numbers.nets.now ≡ parts.now.net) }
        ensures units { IfOk result (λ numbers. numbers.units.now ≡ units_from 0 parts.now.chips) }
        ensures small { IfOk result (λ numbers. length numbers.nets.now.nets ≤ 1024) }
        ensures few { IfOk result (λ numbers. length numbers.units.now < 2 ^ 32) }
    {
        let (nets, units) = (parts.numbers(), parts.units());
        let pins = register_pins(alloc, units)?;
        if pins.len() > u32::MAX as usize {
            return Err(NoMemory);
        }
        let chips = parts.chips();
        let registers = place_table(alloc, chips.len(), pins.as_slice(), 0)?;
        Ok(Numbers {
            nets,
            units,
            registers,
        })
    }

    /// The net of a pin.
    pub(crate) fn net_of(&self, chip: u32, pin: u8) -> u32
        requires { chip < length self.now.nets.now.chips }
        ensures { result ≡ net_of self.now.nets.now (chip, pin) }
    {
        self.nets.net_of(chip, pin)
    }

    /// The place of the register of a pin.
    pub(crate) fn register_of(&self, chip: u32, pin: u8) -> u32
        requires { chip < length self.now.nets.now.chips }
        ensures { result ≡ place_of (chip, pin) (map at_of (registers_of self.now.units.now)) }
    {
        self.registers.at(chip, pin)
    }

    /// What a source of a chip reads.
    fn read(&self, chip: u32, source: Source) -> Read
        requires { chip < length self.now.nets.now.chips }
        ensures { result ≡ read_of self.now.nets.now self.now.units.now chip source }
    {
        match source {
            Source::Pin(pin) => Read::OfNet(self.net_of(chip, pin)),
            Source::Reg(pin) => Read::OfRegister(self.register_of(chip, pin)),
        }
    }

    /// A product of a chip, on its board.
    pub(crate) fn literals(
        &self,
        alloc: Global,
        chip: u32,
        lits: &[Lit],
    ) -> Result<Items<Literal>, NoMemory>
        requires { chip < length self.now.nets.now.chips }
        ensures { IfOk result (λ literals. literals ≡ literals_of self.now.nets.now self.now.units.now chip lits.now) }
    {
        let mut literals = Vec::with_capacity(alloc, lits.len())?;
        for lit in lits {
            let source = self.read(chip, lit.source);
            literals.push(Literal {
                source,
                high: lit.high,
            })?;
        }
        Ok(Items::new(literals))
    }

    /// The products of a chip, on its board.
    pub(crate) fn terms(
        &self,
        alloc: Global,
        chip: u32,
        terms: &[Product],
    ) -> Result<Items<Items<Literal>>, NoMemory>
        requires { chip < length self.now.nets.now.chips }
        ensures { IfOk result (λ products. products ≡ map (literals_of self.now.nets.now self.now.units.now chip) terms.now) }
    {
        let mut products = Vec::with_capacity(alloc, terms.len())?;
        for term in terms {
            products.push(self.literals(alloc, chip, term.items())?)?;
        }
        Ok(Items::new(products))
    }
}
