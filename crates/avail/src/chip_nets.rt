ghost use Rattle.std.specs.Prelude.{◌≡◌, ◌==◌, ◌&&◌, option_and_then};
ghost use Rattle.std.specs.List.{list_any};
ghost use Rattle.mig_base.specs.DeviceTables.{pair_pins as pins_of_pairs, enable_pin as enable_pin_of, clock_pin, is_v8 as v8};
ghost use Rattle.mig_base.specs.First.{or_else};
ghost use Rattle.new_board.specs.NewChip.{unit_net, unit_on, enable_net as net_enabling, clock_net, first_registered, fixed_net, register_on, read_by as literal_by, is_literal_of as literal_is_of, is_read_at, is_read, when};
ghost use Rattle.avail.specs.ServedVariables.{pin_net_by, pin_reads_by, reading_pin_by};

use crate::old_board::{Old, net_level};
use crate::planned::PlannedChip;
use crate::taking::{Taken, input_at};
use crate::variables::same_read;
use devices::{is_v8, pair_pins};
use mig_base::{CLOCK_PIN, Circuit, Gate, Literal, Read, enable_pin};

const GROUND: u32 = 0;

const POWER: u32 = 1;

/// The net of the enable pin of registered units on a V8 that one product enables: GND where it is Always, else the net
/// of whose level its one literal is the complement.
pub fn product_enables(old: &Old, lits: &[Literal]) -> Option<u32>
    ensures { result ≡ net_enabling old.now (Gate.Product lits.now) }
{
    match lits {
        [] => Some(GROUND),
        [lit] => old.net_of_complement(*lit),
        _ => None,
    }
}

/// The net of the enable pin of registered units on a V8, by the enable of one of them: VCC where it is Never, else as its
/// product says.
pub fn enable_net(old: &Old, enable: &Gate) -> Option<u32>
    ensures { result ≡ net_enabling old.now enable.now }
{
    match enable {
        Gate::Never => Some(POWER),
        Gate::Product(lits) => product_enables(old, lits.items()),
    }
}

/// A new chip, with the nets of its clock and enable pins.
#[derive(Drop)]
pub struct ChipNets<'a> {
    pub old: &'a Old<'a>,
    pub chip: &'a PlannedChip,
    pub clock: Option<u32>,
    enable: Option<u32>,
    ghost clock_is: { clock ≡ clock_net old.now.circuit chip.now },
    ghost enable_is: { enable ≡ option_and_then (λ x. net_enabling old.now x.enable) (first_registered old.now.circuit chip.now) },
}

impl<'a> ChipNets<'a> {
    pub fn new(old: &'a Old<'a>, chip: &'a PlannedChip) -> ChipNets<'a>
        ensures old { result.old.now ≡ old.now }
        ensures chip { result.chip.now ≡ chip.now }
    {
        let clock = chip.clock_net(old.circuit);
        let enable = match chip.first_registered(old.circuit) {
            Some(unit) => enable_net(old, &unit.enable),
            None => None,
        };
        ChipNets {
            old,
            chip,
            clock,
            enable,
        }
    }

    /// The net of the unit on a pin.
    fn unit_net_on(&self, pin: u8) -> Option<u32>
        ensures { result ≡ option_and_then (λ x. unit_net self.now.old.now x.unit) (unit_on self.now.chip.now.units pin) }
    {
        self.old.unit_net(self.chip.unit_on(pin)?.unit)
    }

    /// The net of a pin by which the chip's registered units are clocked or enabled.
    fn control_net(&self, pin: u8) -> Option<u32>
        ensures { result ≡ or_else (when (pin == clock_pin self.now.chip.now.kind) (clock_net self.now.old.now.circuit self.now.chip.now))
            (when (v8 self.now.chip.now.kind && (pin == enable_pin_of self.now.chip.now.kind))
            (option_and_then (λ x. net_enabling self.now.old.now x.enable) (first_registered self.now.old.now.circuit self.now.chip.now))) }
    {
        let chip = self.chip;
        if pin == CLOCK_PIN && self.clock.is_some() {
            self.clock
        } else if is_v8(chip.kind) && pin == enable_pin(chip.kind) {
            self.enable
        } else {
            None
        }
    }

    /// The net that a pin stands on, but for input pins.
    pub fn fixed_net(&self, pin: u8) -> Option<u32>
        ensures { result ≡ fixed_net self.now.old.now self.now.chip.now pin }
    {
        match self.unit_net_on(pin) {
            Some(net) => Some(net),
            None => self.control_net(pin),
        }
    }

    /// The register of the unit on a pin.
    pub fn register_on(&self, pin: u8) -> Option<u32>
        ensures { result ≡ register_on self.now.old.now.circuit self.now.chip.now pin }
    {
        let old = self.old;
        self.chip.register_on(old.circuit, pin)
    }

    /// Whether a pin of a column pair reads a variable, but for input pins.
    fn is_read_at(&self, variable: Read, pin: u8) -> bool
        ensures { result ≡ is_read_at self.now.old.now self.now.chip.now variable pin }
    {
        let old = self.old;
        let read = read_by(old.circuit, self.register_on(pin), self.fixed_net(pin));
        is_literal_of(variable, read)
    }

    /// Whether a column reads a variable without an input pin.
    pub(crate) fn is_read(&self, variable: Read) -> bool
        ensures { result ≡ is_read self.now.old.now self.now.chip.now variable }
    {
        let chip = self.chip;
        for pin in pair_pins(chip.kind, chip.mode) {
            if self.is_read_at(variable, *pin) {
                return true;
            }
        }
        false
    }
}

/// The net that a pin of a new chip stands on, where these are its input pins.
pub fn pin_net(nets: &ChipNets, taken: &[Taken], pin: u8) -> Option<u32>
    ensures { result ≡ pin_net_by nets.now.old.now nets.now.chip.now taken.now pin }
{
    match nets.fixed_net(pin) {
        Some(net) => Some(net),
        None => nets.old.wire_for(input_at(taken, pin)?),
    }
}

/// What the columns of a pin read, where these are the input pins.
pub fn pin_reads(nets: &ChipNets, taken: &[Taken], pin: u8) -> Option<Literal>
    ensures { result ≡ pin_reads_by nets.now.old.now nets.now.chip.now taken.now pin }
{
    let old = nets.old;
    read_by(
        old.circuit,
        nets.register_on(pin),
        pin_net(nets, taken, pin),
    )
}

/// The first pin, by rising column, whose columns read a variable, where these are the input pins.
pub(crate) fn reading_pin(nets: &ChipNets, taken: &[Taken], variable: Read) -> Option<u8>
    ensures { result ≡ reading_pin_by nets.now.old.now nets.now.chip.now taken.now variable }
{
    let chip = nets.chip;
    for pin in pair_pins(chip.kind, chip.mode) {
        if is_literal_of(variable, pin_reads(nets, taken, *pin)) {
            return Some(*pin);
        }
    }
    None
}

/// What the columns of a pin read: the register of its unit, or the level of the pin's net.
fn read_by(circuit: &Circuit, register: Option<u32>, net: Option<u32>) -> Option<Literal>
    ensures { result ≡ literal_by circuit.now register net }
{
    match register {
        Some(register) => Some(Literal {
            source: Read::OfRegister(register),
            high: true,
        }),
        None => Some(net_level(circuit, net?)),
    }
}

/// Whether a literal is one of a variable.
fn is_literal_of(variable: Read, lit: Option<Literal>) -> bool
    ensures { result ≡ literal_is_of variable lit }
{
    match lit {
        Some(lit) => same_read(lit.source, variable),
        None => false,
    }
}
