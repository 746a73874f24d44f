ghost use Rattle.std.specs.Prelude.{◌≡◌, ◌==◌, ◌&&◌, ◌||◌, not, is_some, filter, IfOk, OnOk};
ghost use Rattle.new_board.specs.NewChip.{is_read as reads, first_of};
ghost use Rattle.new_board.specs.InputPins.{wire_for, is_free as free_pin, free_pins, Taken, has_pin as has_own, is_taken as taken_pin, taking, take_pins as pins_taken, chip_from, stood_on, input_at as input_on};
ghost use Rattle.avail.specs.ServedVariables.{wanting, pins_for as pins_of_needed, is_served_by, first_unserved_by};

use crate::chip_nets::ChipNets;
use crate::old_board::Old;
use crate::variables::same_read;
use devices::{ordinary_pins, pair_pins};
use mig_base::{CLOCK_PIN, Kind, Name, NoMemory, Read};
use std::alloc::Global;

/// A variable on an input pin.
pub type Taken = (Read, u8);

/// Whether a pin may become an input pin: it has columns, holds no unit, and is not the clock pin of registered units.
fn is_free(nets: &ChipNets, pin: u8) -> bool
    ensures { result ≡ free_pin nets.now.old.now nets.now.chip.now pin }
{
    let chip = nets.chip;
    pair_pins(chip.kind, chip.mode).contains(&pin)
        && chip.unit_on(pin).is_none()
        && !(pin == CLOCK_PIN && nets.clock.is_some())
}

/// The pins that may become input pins, rising.
fn free_pins_of(alloc: Global, nets: &ChipNets) -> Result<Vec<u8>, NoMemory>
    ensures { IfOk result (λ pins. pins.items ≡ free_pins nets.now.old.now nets.now.chip.now) }
{
    let chip = nets.chip;
    let mut free = Vec::new(alloc);
    for pin in ordinary_pins(chip.kind) {
        if is_free(nets, *pin) {
            free.push(*pin)?;
        }
    }
    Ok(free)
}

/// Whether a needed variable takes an input pin: it is not read already, and it can be wired.
fn takes_pin(nets: &ChipNets, variable: Read) -> bool
    ensures { result ≡ not (reads nets.now.old.now nets.now.chip.now variable) && is_some (wire_for nets.now.old.now variable) }
{
    !nets.is_read(variable) && nets.old.wire_for(variable).is_some()
}

/// Those of these variables that take an input pin.
fn input_variables(alloc: Global, nets: &ChipNets, needed: &[Read]) -> Result<Vec<Read>, NoMemory>
    ensures { IfOk result (λ variables. variables.items ≡ wanting nets.now.old.now nets.now.chip.now needed.now) }
{
    let mut variables = Vec::new(alloc);
    for variable in needed {
        if takes_pin(nets, *variable) {
            variables.push(*variable)?;
        }
    }
    Ok(variables)
}

/// Whether a variable has a pin already.
fn has_pin(taken: &[Taken], variable: Read) -> bool
    ensures { result ≡ has_own taken.now variable }
{
    taken.iter().any(|own| same_read(own.0, variable))
}

/// Whether a pin has a variable already.
fn is_taken(taken: &[Taken], pin: u8) -> bool
    ensures { result ≡ taken_pin taken.now pin }
{
    taken.iter().any(|own| own.1 == pin)
}

/// Where the variables of a new chip may stand: its free pins, and the old chip of its name.
#[derive(Drop)]
struct Places<'a> {
    old: &'a Old<'a>,
    name: &'a Name,
    free: &'a [u8],
    former: Option<(u32, Kind)>,
    ghost former_is: { former ≡ chip_from 0 old.now.net.chips name.now },
}

impl<'a> Places<'a> {
    /// Whether the pin of this number of the old chip of the same name stands on a net of the variable.
    fn stood(&self, variable: Read, pin: u8) -> bool
        ensures { result ≡ stood_on self.now.old.now variable pin (chip_from 0 self.now.old.now.net.chips self.now.name.now) }
    {
        self.old.stood_on(variable, pin, self.former)
    }

    /// The lowest free pin that is not taken and, if asked so, where the variable stood.
    fn open_pin(&self, taken: &[Taken], variable: Read, anywhere: bool) -> Option<u8>
        ensures { result ≡ first_of (filter (λ p. not (taken_pin taken.now p) && (anywhere || stood_on self.now.old.now variable p (chip_from 0 self.now.old.now.net.chips self.now.name.now))) self.now.free.now) }
    {
        for pin in self.free {
            if !is_taken(taken, *pin) && (anywhere || self.stood(variable, *pin)) {
                return Some(*pin);
            }
        }
        None
    }

    /// Gives each of these variables that has no pin yet the first pin that suits it.
    fn take_pins(
        &self,
        taken: &mut Vec<Taken>,
        variables: &[Read],
        anywhere: bool,
    ) -> Result<(), NoMemory>
        ensures { OnOk result (taken.new.items ≡ pins_taken (λ v p. anywhere || stood_on self.now.old.now v p (chip_from 0 self.now.old.now.net.chips self.now.name.now)) self.now.free.now taken.old.items variables.now) }
    {
        for variable in variables {
            if !has_pin(taken.as_slice(), *variable) {
                self.take_pin(taken, *variable, anywhere)?;
            }
        }
        Ok(())
    }

    fn take_pin(
        &self,
        taken: &mut Vec<Taken>,
        variable: Read,
        anywhere: bool,
    ) -> Result<(), NoMemory>
        ensures { OnOk result (taken.new.items ≡ taking taken.old.items variable
            (first_of (filter (λ p. not (taken_pin taken.old.items p) && (anywhere || stood_on self.now.old.now variable p (chip_from 0 self.now.old.now.net.chips self.now.name.now))) self.now.free.now))) }
    {
        if let Some(pin) = self.open_pin(taken.as_slice(), variable, anywhere) {
            taken.push((variable, pin))?;
        }
        Ok(())
    }
}

/// The input pins of these variables: first each one takes the lowest free pin where it stood on the old chip of the same
/// name, then the rest take the lowest free pins. Fails for want of memory alone.
pub fn pins_for(alloc: Global, nets: &ChipNets, needed: &[Read]) -> Result<Vec<Taken>, NoMemory>
    ensures { IfOk result (λ pins. pins.items ≡ pins_of_needed nets.now.old.now nets.now.chip.now needed.now) }
{
    let variables = input_variables(alloc, nets, needed)?;
    let free = free_pins_of(alloc, nets)?;
    let chip = nets.chip;
    let places = Places {
        old: nets.old,
        free: free.as_slice(),
        name: &chip.name,
        former: nets.old.chip_named(&chip.name),
    };
    let mut taken = Vec::new(alloc);
    places.take_pins(&mut taken, variables.as_slice(), false)?;
    places.take_pins(&mut taken, variables.as_slice(), true)?;
    Ok(taken)
}

/// Whether a variable is read where these are the input pins: it needs none, or has one.
pub(crate) fn is_served(nets: &ChipNets, taken: &[Taken], variable: Read) -> bool
    ensures { result ≡ is_served_by nets.now.old.now nets.now.chip.now taken.now variable }
{
    nets.is_read(variable) || has_pin(taken, variable)
}

/// The first of these variables that is not read where these are the input pins.
pub fn first_unserved(nets: &ChipNets, taken: &[Taken], needed: &[Read]) -> Option<Read>
    ensures { result ≡ first_unserved_by nets.now.old.now nets.now.chip.now taken.now needed.now }
{
    for variable in needed {
        if !is_served(nets, taken, *variable) {
            return Some(*variable);
        }
    }
    None
}

/// The variable on an input pin.
pub fn input_at(taken: &[Taken], pin: u8) -> Option<Read>
    ensures { result ≡ input_on taken.now pin }
{
    for (variable, place) in taken {
        if *place == pin {
            return Some(*variable);
        }
    }
    None
}
