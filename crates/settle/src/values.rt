ghost use Rattle.std.specs.Prelude.{◌≡◌, ◌≢◌, true};
ghost use Rattle.mig_base.specs.declared.levels.Level.TheVariants.{Z as Floating};
ghost use Rattle.mig_base.specs.Levels.{level_at as level_in_place, read_level as level_read};
ghost use Rattle.mig_base.specs.Values.{node_level, literal_value as value_of_literal, product_value as value_of_product, sum_value as value_of_sum, row_value as value_of_row, inverted as inverted_if};
ghost use Rattle.level_laws.specs.Settled.{gives_level as level_given, gated as behind_enable, drive_level as level_driven, visible_level as level_seen};

use mig_base::{
    Driver, Gate, Gives, Items, Level, Levels, Literal, Read, Register, and3, not3, or3, read_level,
};

/// The level at a place, and X where there is none.
pub(crate) fn level_at(levels: &[Level], place: u32) -> Level
    ensures { result ≡ level_in_place levels.now place }
{
    let place = place as usize;
    if place < levels.len() {
        levels[place]
    } else {
        Level::X
    }
}

/// What stands at a node.
pub(crate) fn level_of(levels: &Levels, node: Read) -> Level
    ensures { result ≡ node_level levels.now node }
{
    match node {
        Read::OfNet(net) => level_at(levels.nets.items(), net),
        Read::OfRegister(register) => level_at(levels.visible.items(), register),
    }
}

/// Whether two levels are the same.
pub(crate) fn same_level(one: Level, other: Level) -> bool
    ensures { result ≡ true → one ≡ other }
{
    one == other
}

/// What stands at a node, where a floating one reads X.
fn read_at(levels: &Levels, node: Read) -> Level
    ensures { result ≡ level_read (node_level levels.now node) }
{
    match node {
        Read::OfNet(net) => read_level(level_at(levels.nets.items(), net)),
        Read::OfRegister(register) => read_level(level_at(levels.visible.items(), register)),
    }
}

/// NOT where it is low; X where it floats.
pub(crate) fn inverted(low: bool, level: Level) -> Level
    ensures value { result ≡ inverted_if low level }
    ensures known { level ≢ Floating → result ≢ Floating }
{
    if low { not3(read_level(level)) } else { level }
}

/// The value of a literal, where a floating one reads X.
fn literal_value(levels: &Levels, literal: Literal) -> Level
    ensures { result ≡ level_read (value_of_literal levels.now literal) }
{
    inverted(!literal.high, read_at(levels, literal.source))
}

/// The value of a product: 1 where there is no literal.
fn product_value(levels: &Levels, literals: &[Literal]) -> Level
    ensures value { result ≡ value_of_product levels.now literals.now }
    ensures known { result ≢ Floating }
{
    let mut value = Level::One;
    for literal in literals {
        match literal_value(levels, *literal) {
            Level::Zero => return Level::Zero,
            level => value = and3(value, level),
        }
    }
    value
}

/// The value of a sum: 0 where there is no product.
pub(crate) fn sum_value(levels: &Levels, terms: &[Items<Literal>]) -> Level
    ensures value { result ≡ value_of_sum levels.now terms.now }
    ensures known { result ≢ Floating }
{
    let mut value = Level::Zero;
    for term in terms {
        match product_value(levels, term.items()) {
            Level::One => return Level::One,
            level => value = or3(value, level),
        }
    }
    value
}

/// The value of a row.
pub(crate) fn row_value(levels: &Levels, row: &Gate) -> Level
    ensures value { result ≡ value_of_row levels.now row.now }
    ensures known { result ≢ Floating }
{
    match row {
        Gate::Never => Level::Zero,
        Gate::Product(literals) => product_value(levels, literals.items()),
    }
}

/// What a unit gives where it is enabled.
fn gives_level(levels: &Levels, gives: &Gives) -> Level
    ensures { result ≡ level_given levels.now gives.now }
{
    match gives {
        Gives::Sum(terms) => sum_value(levels, terms.items()),
        Gives::Visible(register) => level_at(levels.visible.items(), *register),
    }
}

/// The drive of a unit.
pub(crate) fn drive_level(levels: &Levels, driver: &Driver) -> Level
    ensures { result ≡ level_driven levels.now driver.now }
{
    match row_value(levels, &driver.enable) {
        Level::Zero => Level::Z,
        Level::One => inverted(driver.low, gives_level(levels, &driver.gives)),
        Level::Z | Level::X => Level::X,
    }
}

/// The visible Q of a register that stores this level.
pub(crate) fn visible_level(levels: &Levels, register: &Register, stored: Level) -> Level
    ensures { result ≡ level_seen levels.now register.now stored }
{
    and3(read_level(stored), not3(row_value(levels, &register.reset)))
}
