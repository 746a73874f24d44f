ghost use Rattle.std.specs.Prelude.{◌≡◌, slice_get, option_and_then};
ghost use Rattle.structure.specs.Pure.{always_enabled, is_always as is_always_gate};
ghost use Rattle.new_board.specs.NewChip.{register_given};
ghost use Rattle.new_board.specs.NewFiles.{pin_low_of};
ghost use Rattle.board.specs.Joined.{equations_of};
ghost use Rattle.plans.specs.FirstOf.{Gives as GivesThis, GivesFirst};
ghost use Rattle.plans.specs.UnitBreaches as spec;
ghost use Rattle.plans.specs.Breaches.{RuleGives};
ghost use Rattle.fit.specs.UnitAnswers.{place_rules};
ghost use Rattle.fit.specs.RuleLists.{PlaceGives, rule_of_place};

use crate::placed::Placed;
use board::Board;
use devices::is_v8;
use forms::is_registered;
use mig_base::{Breach, Circuit, Gate, Gives, Mode};
use plans::Placing;

/// A rule on placed units that asks for no part of them.
#[derive(Clone, Copy)]
pub(crate) enum PlaceRule {
    WrongMode,
    WrongClock,
    WrongPhase,
}

/// These rules in their order.
const PLACE_RULES: [PlaceRule; 3] = [
    PlaceRule::WrongMode,
    PlaceRule::WrongClock,
    PlaceRule::WrongPhase,
];

/// What the first of these rules that is broken names.
pub(crate) fn first_by_places(placed: &Placed) -> Option<Breach>
    ensures { GivesFirst (RuleGives placed.now.board.now placed.now.plan.now) place_rules result }
{
    first_by(placed, &PLACE_RULES)
}

fn first_by(placed: &Placed, rules: &[PlaceRule]) -> Option<Breach>
    ensures { GivesFirst (λ r x. RuleGives placed.now.board.now placed.now.plan.now (rule_of_place r) x) rules.now result }
{
    for rule in rules {
        if let Some(breach) = first_misplaced(placed, placed.units, *rule) {
            return Some(breach);
        }
    }
    None
}

/// The breach of the first of these units that breaks a rule.
fn first_misplaced(placed: &Placed, units: &[Placing], rule: PlaceRule) -> Option<Breach>
    ensures { GivesFirst (PlaceGives placed.now.board.now placed.now.plan.now rule) units.now result }
{
    for unit in units {
        if let Some(breach) = misplaced(placed, rule, unit) {
            return Some(breach);
        }
    }
    None
}

fn misplaced(placed: &Placed, rule: PlaceRule, unit: &Placing) -> Option<Breach>
    ensures { GivesThis (PlaceGives placed.now.board.now placed.now.plan.now rule) unit.now result }
{
    match rule {
        PlaceRule::WrongMode => wrong_mode(placed.board, unit),
        PlaceRule::WrongClock => wrong_clock(placed, unit),
        PlaceRule::WrongPhase => wrong_phase(placed.board, unit),
    }
}

/// The breach of a unit that doesn't go with the mode of its chip.
fn wrong_mode(board: &Board, unit: &Placing) -> Option<Breach>
    ensures { result ≡ spec.wrong_mode board.now unit.now }
{
    let registered = is_registered(board, unit.unit);
    let always = is_always_enabled(board, unit.unit);
    if is_out_of_mode(unit.chip.mode, registered, always) {
        Some(Breach::Mode { unit: unit.name })
    } else {
        None
    }
}

/// Whether a mode has no such unit.
fn is_out_of_mode(mode: Mode, registered: bool, always: bool) -> bool
    ensures { result ≡ spec.is_out_of_mode mode registered always }
{
    match mode {
        Mode::Simple => registered || !always,
        Mode::Complex => registered,
        Mode::Registered | Mode::Fixed => false,
    }
}

/// Whether a unit is always enabled on its board.
fn is_always_enabled(board: &Board, unit: u32) -> bool
    ensures { result ≡ always_enabled (slice_get (equations_of board.now).units unit) }
{
    let circuit = board.circuit();
    match circuit.units.items().get(unit as usize) {
        Some(driver) => is_always(&driver.enable),
        None => false,
    }
}

fn is_always(enable: &Gate) -> bool
    ensures { result ≡ is_always_gate enable.now }
{
    match enable {
        Gate::Never => false,
        Gate::Product(lits) => lits.items().is_empty(),
    }
}

/// The breach of a registered unit whose clock net isn't that of its chip's first one.
fn wrong_clock(placed: &Placed, unit: &Placing) -> Option<Breach>
    ensures { result ≡ spec.wrong_clock placed.now.board.now placed.now.plan.now unit.now }
{
    if is_registered(placed.board, unit.unit) && has_other_clock(placed, unit) {
        Some(Breach::Clock { unit: unit.name })
    } else {
        None
    }
}

/// Whether the first registered unit of a unit's chip has another clock net.
fn has_other_clock(placed: &Placed, unit: &Placing) -> bool
    ensures { result ≡ spec.has_other_clock placed.now.board.now unit.now.unit (spec.first_on placed.now.board.now placed.now.plan.now unit.now) }
{
    match placed.first_on(unit) {
        Some(first) => {
            let first = placed.units[first];
            clock_of(placed.board, unit.unit) != clock_of(placed.board, first.unit)
        }
        None => false,
    }
}

/// The clock net of a registered unit, and GND of another one.
fn clock_of(board: &Board, unit: u32) -> u32
    ensures { result ≡ spec.clock_of board.now unit }
{
    let circuit = board.circuit();
    match circuit.units.items().get(unit as usize) {
        Some(driver) => clock_given(circuit, &driver.gives),
        None => 0,
    }
}

fn clock_given(circuit: &Circuit, gives: &Gives) -> u32
    ensures { result ≡ spec.register_clock (option_and_then (slice_get circuit.now.registers) (register_given gives.now)) }
{
    match gives {
        Gives::Sum(_) => 0,
        Gives::Visible(register) => match circuit.registers.items().get(*register as usize) {
            Some(register) => register.clock,
            None => 0,
        },
    }
}

/// The breach of a register on a V8 whose pin shows Q.
fn wrong_phase(board: &Board, unit: &Placing) -> Option<Breach>
    ensures { result ≡ spec.wrong_phase board.now unit.now }
{
    if is_registered(board, unit.unit) && is_v8(unit.chip.kind) && !is_pin_low(board, unit.unit) {
        Some(Breach::Phase { unit: unit.name })
    } else {
        None
    }
}

/// Whether the pin of a registered unit shows NOT Q.
fn is_pin_low(board: &Board, unit: u32) -> bool
    ensures { result ≡ pin_low_of (slice_get (equations_of board.now).units unit) }
{
    let circuit = board.circuit();
    match circuit.units.items().get(unit as usize) {
        Some(driver) => driver.low,
        None => false,
    }
}
