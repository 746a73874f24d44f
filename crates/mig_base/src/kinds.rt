ghost use Rattle.std.specs.Prelude.{◌≡◌, ◌==◌, IsTrue, ◌↔◌, Some};
ghost use Rattle.std.specs.Option.{option_map};
ghost use Rattle.std.specs.List.{list_any};
ghost use Rattle.mig_base.specs.DeviceTables.{kind_named, kind_among as kind_in, kind_name, pins_of, cell_pins, is_22 as is_22v10, enable_pin as enable_pin_of};
ghost use Rattle.mig_base.specs.declared.kinds.Kind.{Kind as KindOf};

/// The kinds of chips. `Gal22V10Q` is a 22V10 whose registered cells feed Q back on the even column.
#[derive(Clone, Copy, Debug, PartialEq, Eq)]
pub enum Kind {
    Pal16L8,
    Pal16R4,
    Pal16R6,
    Pal16R8,
    Pal20L8,
    Pal20R4,
    Pal20R6,
    Pal20R8,
    Gal16V8,
    Gal20V8,
    Gal22V10,
    Gal22V10Q,
}

/// The mode of a GAL16V8 or GAL20V8, and `Fixed` for every other chip.
#[derive(Clone, Copy, Debug, PartialEq, Eq)]
pub enum Mode {
    Fixed,
    Simple,
    Complex,
    Registered,
}

/// The pin that clocks the registered cells of every kind.
pub const CLOCK_PIN: u8 = 1;

/// The twelve kinds.
const KINDS: [Kind; 12] = [
    Kind::Pal16L8,
    Kind::Pal16R4,
    Kind::Pal16R6,
    Kind::Pal16R8,
    Kind::Pal20L8,
    Kind::Pal20R4,
    Kind::Pal20R6,
    Kind::Pal20R8,
    Kind::Gal16V8,
    Kind::Gal20V8,
    Kind::Gal22V10,
    Kind::Gal22V10Q,
];

/// The kind of this name. `None` exactly where the text is none of the twelve names.
pub fn kind_of(text: &[u8]) -> Option<Kind>
    ensures { result ≡ kind_named text.now }
{
    kind_among(&KINDS, text)
}

/// The first of these kinds that has the name.
fn kind_among(kinds: &[Kind], text: &[u8]) -> Option<Kind>
    ensures { result ≡ kind_in kinds.now text.now }
{
    for kind in kinds {
        if text == kind_text(*kind).as_bytes() {
            return Some(*kind);
        }
    }
    None
}

/// The name of a kind.
pub fn kind_text(k: Kind) -> &'static str
    ensures { result.now ≡ kind_name k }
{
    match k {
        Kind::Pal16L8 => "PAL16L8",
        Kind::Pal16R4 => "PAL16R4",
        Kind::Pal16R6 => "PAL16R6",
        Kind::Pal16R8 => "PAL16R8",
        Kind::Pal20L8 => "PAL20L8",
        Kind::Pal20R4 => "PAL20R4",
        Kind::Pal20R6 => "PAL20R6",
        Kind::Pal20R8 => "PAL20R8",
        Kind::Gal16V8 => "GAL16V8",
        Kind::Gal20V8 => "GAL20V8",
        Kind::Gal22V10 => "GAL22V10",
        Kind::Gal22V10Q => "GAL22V10Q",
    }
}

/// The number of pins of a kind; the last pin is power.
pub fn pins(k: Kind) -> u8
    ensures { result ≡ pins_of k }
{
    match k {
        Kind::Pal16L8 | Kind::Pal16R4 | Kind::Pal16R6 | Kind::Pal16R8 | Kind::Gal16V8 => 20,
        _ => 24,
    }
}

/// Whether a kind is a 22V10.
pub fn is_22(k: Kind) -> bool
    ensures { result ≡ is_22v10 k }
{
    matches!(k, Kind::Gal22V10 | Kind::Gal22V10Q)
}

/// The low-active enable pin of the registered cells of a kind, but for a 22V10.
pub fn enable_pin(k: Kind) -> u8
    ensures { result ≡ enable_pin_of k }
{
    match pins(k) {
        20 => 11,
        _ => 13,
    }
}

/// The name of each kind names that kind.
pub fn kinds_are_named()
    ensures { (k : KindOf) → kind_named (kind_name k) ≡ Some k }
{}

/// Whether the pin of a kind is that of a macrocell.
pub fn is_cell(k: Kind, pin: u8) -> bool
    ensures { result ≡ list_any (λ p. p == pin) (cell_pins k) }
{
    match k {
        Kind::Gal22V10 | Kind::Gal22V10Q => 14 <= pin && pin <= 23,
        Kind::Pal16L8 | Kind::Pal16R4 | Kind::Pal16R6 | Kind::Pal16R8 | Kind::Gal16V8 => {
            12 <= pin && pin <= 19
        }
        _ => 15 <= pin && pin <= 22,
    }
}
