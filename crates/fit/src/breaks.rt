ghost use Rattle.std.specs.Prelude.{◌≡◌, ◌<◌, ◌||◌, true, length, slice_get, option_copied, Some};
ghost use Rattle.plans.specs.FirstOf.{Gives, GivesFirst};
ghost use Rattle.plans.specs.Forms.{room_of as room_of_unit};
ghost use Rattle.plans.specs.Placings.{old as old_of, absorbed_units};
ghost use Rattle.plans.specs.UnitBreaches as spec;
ghost use Rattle.mig_base.specs.declared.plans.Breach.{Breach as Breached};
ghost use Rattle.plans.specs.Breaches.{RuleGives, PrimesOver as OverPrimes};
ghost use Rattle.fit.specs.UnitAnswers.{part_rules};
ghost use Rattle.fit.specs.Parts.{AreParts, AreAllParts, AreFirstParts, made_in, width_of, wide_breach, has_control_over as has_over, over_breach, terms_breach, breaks_made, breaks_made_pin, has_many as is_many};
ghost use Rattle.fit.specs.RuleLists.{PartGives, rule_of_part};

use crate::parts::{UnitParts, control_width, form_width, is_control_over, is_form_over, room_of};
use crate::placed::Placed;
use crate::sharing::{are_many, breaks_pin, breaks_reset};
use avail::Old;
use board::Board;
use devices::is_v8;
use forms::{Control, Form, is_registered};
use mig_base::{Breach, is_22};
use plans::Placing;

/// A rule on the parts of placed units.
#[derive(Clone, Copy)]
pub(crate) enum PartRule {
    ConeWide,
    PrimesOver,
    WrongReset,
    WrongEnable,
}

/// The rules before the last in their order.
const PART_RULES: [PartRule; 4] = [
    PartRule::ConeWide,
    PartRule::PrimesOver,
    PartRule::WrongReset,
    PartRule::WrongEnable,
];

/// Placed units with their parts.
#[derive(Drop)]
struct Reckoned<'a, 'b, 'c, 'd> {
    placed: &'a Placed<'a>,
    old: &'b Old<'c>,
    parts: &'d [UnitParts],
    ghost old_is: { old.now ≡ old_of placed.now.board.now },
}

impl<'a, 'b, 'c, 'd> Reckoned<'a, 'b, 'c, 'd> {
    fn new(
        placed: &'a Placed<'a>,
        old: &'b Old<'c>,
        parts: &'d [UnitParts],
    ) -> Reckoned<'a, 'b, 'c, 'd>
        requires old { old.now ≡ old_of placed.now.board.now }
        ensures placed { result.placed.now ≡ placed.now }
        ensures parts { result.parts.now ≡ parts.now }
    {
        Reckoned { placed, old, parts }
    }

    /// The parts of the placed unit at a place.
    fn parts_at(&self, place: usize) -> &UnitParts
        requires { place < length self.now.parts.now }
        ensures { slice_get self.now.parts.now place ≡ Some result.now }
    {
        &self.parts[place]
    }

    /// The parts of the first registered unit of a unit's chip.
    fn first_parts(&self, unit: &Placing) -> Option<&UnitParts>
        requires { AreAllParts self.now.placed.now.board.now self.now.placed.now.plan.now self.now.parts.now }
        ensures { AreFirstParts self.now.placed.now.board.now self.now.placed.now.plan.now unit.now (option_copied result) }
    {
        let first = self.placed.first_on(unit)?;
        Some(self.parts_at(first))
    }
}

/// What the first rule on parts that is broken names, where placed units have these parts.
pub(crate) fn broken_part<'a>(
    placed: &'a Placed<'a>,
    old: &Old,
    parts: &[UnitParts],
) -> Option<Breach>
    requires old { old.now ≡ old_of placed.now.board.now }
    requires parts { AreAllParts placed.now.board.now placed.now.plan.now parts.now }
    ensures { GivesFirst (RuleGives placed.now.board.now placed.now.plan.now) part_rules result }
{
    let reckoned = Reckoned::new(placed, old, parts);
    first_by_parts(&reckoned)
}

/// What the first of these rules that is broken names.
fn first_by_parts(reckoned: &Reckoned) -> Option<Breach>
    requires all { AreAllParts reckoned.now.placed.now.board.now reckoned.now.placed.now.plan.now reckoned.now.parts.now }
    ensures { GivesFirst (RuleGives reckoned.now.placed.now.board.now reckoned.now.placed.now.plan.now) part_rules result }
{
    if let Some(breach) = first_by(reckoned, &PART_RULES) {
        return Some(breach);
    }
    first_terms_over(reckoned, reckoned.placed.units)
}

/// The breach of the first placed unit with more terms of Logic than its cell, where no cover has too many primes.
fn first_terms_over(reckoned: &Reckoned, units: &[Placing]) -> Option<Breach>
    requires units { units.now ≡ reckoned.now.placed.now.units.now }
    requires all { AreAllParts reckoned.now.placed.now.board.now reckoned.now.placed.now.plan.now reckoned.now.parts.now }
    requires free { (y : Breached) → RuleGives reckoned.now.placed.now.board.now reckoned.now.placed.now.plan.now OverPrimes y → ⊥ }
    ensures { GivesFirst (spec.GivesTermsOver reckoned.now.placed.now.board.now (absorbed_units reckoned.now.placed.now.board.now reckoned.now.placed.now.plan.now)) units.now result }
{
    for (i, unit) in units.iter().enumerate() {
        if let Some(breach) = terms_over(reckoned.placed.board, unit, reckoned.parts_at(i)) {
            return Some(breach);
        }
    }
    None
}

fn first_by(reckoned: &Reckoned, rules: &[PartRule]) -> Option<Breach>
    requires all { AreAllParts reckoned.now.placed.now.board.now reckoned.now.placed.now.plan.now reckoned.now.parts.now }
    ensures { GivesFirst (λ r x. RuleGives reckoned.now.placed.now.board.now reckoned.now.placed.now.plan.now (rule_of_part r) x) rules.now result }
{
    for rule in rules {
        if let Some(breach) = first_broken(reckoned, reckoned.placed.units, *rule) {
            return Some(breach);
        }
    }
    None
}

/// The breach of the first placed unit that breaks a rule.
fn first_broken(reckoned: &Reckoned, units: &[Placing], rule: PartRule) -> Option<Breach>
    requires units { units.now ≡ reckoned.now.placed.now.units.now }
    requires all { AreAllParts reckoned.now.placed.now.board.now reckoned.now.placed.now.plan.now reckoned.now.parts.now }
    ensures { GivesFirst (PartGives reckoned.now.placed.now.board.now reckoned.now.placed.now.plan.now rule) units.now result }
{
    for (i, unit) in units.iter().enumerate() {
        if let Some(breach) = broken(reckoned, rule, unit, reckoned.parts_at(i)) {
            return Some(breach);
        }
    }
    None
}

/// The breach of a placed unit with these parts, where it breaks a rule.
fn broken(reckoned: &Reckoned, rule: PartRule, unit: &Placing, parts: &UnitParts) -> Option<Breach>
    requires all { AreAllParts reckoned.now.placed.now.board.now reckoned.now.placed.now.plan.now reckoned.now.parts.now }
    requires parts { AreParts reckoned.now.placed.now.board.now (absorbed_units reckoned.now.placed.now.board.now reckoned.now.placed.now.plan.now) unit.now parts.now }
    ensures { Gives (PartGives reckoned.now.placed.now.board.now reckoned.now.placed.now.plan.now rule) unit.now result }
{
    match rule {
        PartRule::ConeWide => cone_wide(unit, parts),
        PartRule::PrimesOver => primes_over(unit, parts),
        PartRule::WrongReset => wrong_reset(reckoned, unit, parts),
        PartRule::WrongEnable => wrong_enable(reckoned, unit, parts),
    }
}

/// The breach of a unit with a part that has too many variables: the first such part.
fn cone_wide(unit: &Placing, parts: &UnitParts) -> Option<Breach>
    ensures { result ≡ wide_breach unit.now parts.now }
{
    let count = width(parts)?;
    Some(Breach::ConeWide {
        unit: unit.name,
        count,
    })
}

/// The number of variables of the first part that has too many.
fn width(parts: &UnitParts) -> Option<u32>
    ensures { result ≡ width_of parts.now }
{
    if let Some(count) = form_width(&parts.logic) {
        return Some(count);
    }
    if let Some(count) = control_width(&parts.enable) {
        return Some(count);
    }
    if let Some(count) = control_width(&parts.reset) {
        return Some(count);
    }
    control_width(&parts.preset)
}

/// The breach of a unit with a part that has too many primes.
fn primes_over(unit: &Placing, parts: &UnitParts) -> Option<Breach>
    ensures { result ≡ over_breach unit.now parts.now }
{
    if is_form_over(&parts.logic) || has_control_over(parts) {
        Some(Breach::PrimesOver { unit: unit.name })
    } else {
        None
    }
}

fn has_control_over(parts: &UnitParts) -> bool
    ensures { result ≡ has_over parts.now }
{
    is_control_over(&parts.enable)
        || is_control_over(&parts.reset)
        || is_control_over(&parts.preset)
}

/// The breach of a unit with more terms of Logic than its cell.
fn terms_over(board: &Board, unit: &Placing, parts: &UnitParts) -> Option<Breach>
    ensures { result ≡ terms_breach (room_of_unit board.now unit.now) unit.now parts.now.logic }
{
    match parts.logic {
        Form::TermsOver { needed } => Some(Breach::TermsOver {
            unit: unit.name,
            needed,
            most: room_of(board, unit).most,
        }),
        Form::Fits { .. } | Form::Wide { .. } | Form::PrimesOver => None,
    }
}

/// The breach of a registered unit whose reset or preset can't be the row that it shares.
fn wrong_reset(reckoned: &Reckoned, unit: &Placing, parts: &UnitParts) -> Option<Breach>
    requires all { AreAllParts reckoned.now.placed.now.board.now reckoned.now.placed.now.plan.now reckoned.now.parts.now }
    requires parts { AreParts reckoned.now.placed.now.board.now (absorbed_units reckoned.now.placed.now.board.now reckoned.now.placed.now.plan.now) unit.now parts.now }
    ensures { Gives (spec.GivesReset reckoned.now.placed.now.board.now reckoned.now.placed.now.plan.now) unit.now result }
{
    if !is_registered(reckoned.placed.board, unit.unit) {
        return None;
    }
    let first = reckoned.first_parts(unit)?;
    if breaks_rows(is_22(unit.chip.kind), parts, first) {
        Some(Breach::Reset { unit: unit.name })
    } else {
        None
    }
}

/// Whether the reset or the preset of these parts can't be the row of a chip whose first registered unit has the others.
fn breaks_rows(on_22: bool, parts: &UnitParts, first: &UnitParts) -> bool
    ensures { result ≡ (breaks_made on_22 parts.now.reset first.now.reset || breaks_made on_22 parts.now.preset first.now.preset) }
{
    breaks_control(on_22, &parts.reset, &first.reset)
        || breaks_control(on_22, &parts.preset, &first.preset)
}

fn breaks_control(on_22: bool, own: &Control, first: &Control) -> bool
    ensures { result ≡ breaks_made on_22 own.now first.now }
{
    match (own, first) {
        (Control::Made { products }, Control::Made { products: firsts }) => {
            breaks_reset(on_22, products.items(), firsts.items())
        }
        _ => false,
    }
}

/// The breach of a unit whose enable has two products or more, or can't be that of the enable pin that it shares.
fn wrong_enable(reckoned: &Reckoned, unit: &Placing, parts: &UnitParts) -> Option<Breach>
    requires all { AreAllParts reckoned.now.placed.now.board.now reckoned.now.placed.now.plan.now reckoned.now.parts.now }
    requires parts { AreParts reckoned.now.placed.now.board.now (absorbed_units reckoned.now.placed.now.board.now reckoned.now.placed.now.plan.now) unit.now parts.now }
    ensures { Gives (spec.GivesEnable reckoned.now.placed.now.board.now reckoned.now.placed.now.plan.now) unit.now result }
{
    if has_many(&parts.enable) {
        return Some(Breach::Enable { unit: unit.name });
    }
    if wants_other_pin(reckoned, unit, parts) {
        return Some(Breach::Enable { unit: unit.name });
    }
    None
}

fn has_many(control: &Control) -> bool
    ensures { result ≡ is_many (made_in control.now) }
{
    match control {
        Control::Made { products } => are_many(products.items()),
        Control::Wide { .. } | Control::PrimesOver => false,
    }
}

/// Whether a unit is registered on a V8 and its enable can't be that of the enable pin.
fn wants_other_pin(reckoned: &Reckoned, unit: &Placing, parts: &UnitParts) -> bool
    requires all { AreAllParts reckoned.now.placed.now.board.now reckoned.now.placed.now.plan.now reckoned.now.parts.now }
    requires parts { AreParts reckoned.now.placed.now.board.now (absorbed_units reckoned.now.placed.now.board.now reckoned.now.placed.now.plan.now) unit.now parts.now }
    ensures yes { result ≡ true → spec.BreaksPin reckoned.now.placed.now.board.now reckoned.now.placed.now.plan.now unit.now }
    ensures no { spec.BreaksPin reckoned.now.placed.now.board.now reckoned.now.placed.now.plan.now unit.now → result ≡ true }
{
    if !uses_pin(reckoned.placed.board, unit) {
        return false;
    }
    match reckoned.first_parts(unit) {
        Some(first) => breaks_enable(reckoned.old, &parts.enable, &first.enable),
        None => false,
    }
}

fn uses_pin(board: &Board, unit: &Placing) -> bool
    ensures { result ≡ spec.uses_pin board.now unit.now }
{
    is_registered(board, unit.unit) && is_v8(unit.chip.kind)
}

fn breaks_enable(old: &Old, own: &Control, first: &Control) -> bool
    ensures { result ≡ breaks_made_pin old.now own.now first.now }
{
    match (own, first) {
        (Control::Made { products }, Control::Made { products: firsts }) => {
            breaks_pin(old, products.items(), firsts.items())
        }
        _ => false,
    }
}
