ghost use Rattle.std.specs.Prelude.{◌≡◌, ◌≢◌};
ghost use Rattle.mig_base.specs.Levels.{read_level as level_read, and3 as and_of, or3 as or_of, not3 as not_of, resolve2 as resolve_of};
ghost use Rattle.mig_base.specs.declared.levels.Level.TheVariants.{Z as Floating};

/// The level of a net: 0, 1, floating, or not known.
#[derive(Clone, Copy, Debug, PartialEq, Eq)]
pub enum Level {
    Zero,
    One,
    Z,
    X,
}

/// What a pin reads of its net: a floating net reads X.
pub fn read_level(l: Level) -> Level
    ensures { result ≡ level_read l }
{
    match l {
        Level::Z | Level::X => Level::X,
        Level::Zero => Level::Zero,
        Level::One => Level::One,
    }
}

/// Strong three-valued AND: 0 where one is 0, 1 where both are 1, else X.
pub fn and3(a: Level, b: Level) -> Level
    requires left { a ≢ Floating }
    requires right { b ≢ Floating }
    ensures { result ≡ and_of a b }
{
    match (a, b) {
        (Level::Zero, _) | (_, Level::Zero) => Level::Zero,
        (Level::One, Level::One) => Level::One,
        _ => Level::X,
    }
}

/// Strong three-valued OR: 1 where one is 1, 0 where both are 0, else X.
pub fn or3(a: Level, b: Level) -> Level
    requires left { a ≢ Floating }
    requires right { b ≢ Floating }
    ensures { result ≡ or_of a b }
{
    match (a, b) {
        (Level::One, _) | (_, Level::One) => Level::One,
        (Level::Zero, Level::Zero) => Level::Zero,
        _ => Level::X,
    }
}

/// Strong three-valued NOT.
pub fn not3(a: Level) -> Level
    requires { a ≢ Floating }
    ensures { result ≡ not_of a }
{
    match a {
        Level::Zero => Level::One,
        Level::One => Level::Zero,
        Level::Z | Level::X => Level::X,
    }
}

/// Two drivers on one net: Z gives way, equal levels stay, 0 against 1 is X, X wins.
pub fn resolve2(a: Level, b: Level) -> Level
    ensures { result ≡ resolve_of a b }
{
    match (a, b) {
        (Level::Z, other) | (other, Level::Z) => other,
        (Level::Zero, Level::Zero) => Level::Zero,
        (Level::One, Level::One) => Level::One,
        _ => Level::X,
    }
}
