ghost use Rattle.std.specs.Prelude.{◌≡◌};
ghost use Rattle.mig_base.specs.DeviceTables as device;

use mig_base::{Kind, Mode, pins};

const COMPLEX_20: [u8; 16] = [2, 1, 3, 18, 4, 17, 5, 16, 6, 15, 7, 14, 8, 13, 9, 11];

const REGISTERED_20: [u8; 16] = [2, 19, 3, 18, 4, 17, 5, 16, 6, 15, 7, 14, 8, 13, 9, 12];

const SIMPLE_20: [u8; 16] = [2, 1, 3, 19, 4, 18, 5, 17, 6, 14, 7, 13, 8, 12, 9, 11];

const COMPLEX_24: [u8; 20] = [
    2, 1, 3, 23, 4, 21, 5, 20, 6, 19, 7, 18, 8, 17, 9, 16, 10, 14, 11, 13,
];

const REGISTERED_24: [u8; 20] = [
    2, 23, 3, 22, 4, 21, 5, 20, 6, 19, 7, 18, 8, 17, 9, 16, 10, 15, 11, 14,
];

const SIMPLE_24: [u8; 20] = [
    2, 1, 3, 23, 4, 22, 5, 21, 6, 20, 7, 17, 8, 16, 9, 15, 10, 14, 11, 13,
];

const COLUMNS_22: [u8; 22] = [
    1, 23, 2, 22, 3, 21, 4, 20, 5, 19, 6, 18, 7, 17, 8, 16, 9, 15, 10, 14, 11, 13,
];

const ORDINARY_20: [u8; 18] = [
    1, 2, 3, 4, 5, 6, 7, 8, 9, 11, 12, 13, 14, 15, 16, 17, 18, 19,
];

const ORDINARY_24: [u8; 22] = [
    1, 2, 3, 4, 5, 6, 7, 8, 9, 10, 11, 13, 14, 15, 16, 17, 18, 19, 20, 21, 22, 23,
];

/// The pin of each pair of columns, in order (data sheets of the PAL16, GAL16V8, GAL20V8 and GAL22V10).
pub fn pair_pins(kind: Kind, mode: Mode) -> &'static [u8]
    ensures { result.now ≡ device.pair_pins kind mode }
{
    match (kind, mode) {
        (Kind::Gal22V10 | Kind::Gal22V10Q, _) => &COLUMNS_22,
        (Kind::Gal16V8, Mode::Simple) => &SIMPLE_20,
        (Kind::Gal20V8, Mode::Simple) => &SIMPLE_24,
        (Kind::Pal16L8, _) | (Kind::Gal16V8, Mode::Complex) => &COMPLEX_20,
        (Kind::Pal20L8, _) | (Kind::Gal20V8, Mode::Complex) => &COMPLEX_24,
        (Kind::Pal16R4 | Kind::Pal16R6 | Kind::Pal16R8 | Kind::Gal16V8, _) => &REGISTERED_20,
        (Kind::Pal20R4 | Kind::Pal20R6 | Kind::Pal20R8 | Kind::Gal20V8, _) => &REGISTERED_24,
    }
}

/// The macrocell pin of the first rows, on every chip but a 22V10. The pins of the rows that follow fall.
pub fn top_pin(kind: Kind) -> u8
    ensures { result ≡ device.top_pin kind }
{
    if pins(kind) == 20 { 19 } else { 22 }
}

/// The macrocell pins, rising.
pub fn cell_pins(kind: Kind) -> &'static [u8]
    ensures { result.now ≡ device.cell_pins kind }
{
    match kind {
        Kind::Gal22V10 | Kind::Gal22V10Q => &[14, 15, 16, 17, 18, 19, 20, 21, 22, 23],
        Kind::Pal16L8 | Kind::Pal16R4 | Kind::Pal16R6 | Kind::Pal16R8 | Kind::Gal16V8 => {
            &[12, 13, 14, 15, 16, 17, 18, 19]
        }
        _ => &[15, 16, 17, 18, 19, 20, 21, 22],
    }
}

/// The pins of the registers of a PAL. A GAL has none that its kind alone says.
pub fn pal_registers(kind: Kind) -> &'static [u8]
    ensures { result.now ≡ device.pal_registers kind }
{
    match kind {
        Kind::Pal16R4 => &[14, 15, 16, 17],
        Kind::Pal16R6 => &[13, 14, 15, 16, 17, 18],
        Kind::Pal16R8 => &[12, 13, 14, 15, 16, 17, 18, 19],
        Kind::Pal20R4 => &[17, 18, 19, 20],
        Kind::Pal20R6 => &[16, 17, 18, 19, 20, 21],
        Kind::Pal20R8 => &[15, 16, 17, 18, 19, 20, 21, 22],
        _ => &[],
    }
}

/// The pins other than ground and power, rising.
pub fn ordinary_pins(kind: Kind) -> &'static [u8]
    ensures { result.now ≡ device.ordinary_pins kind }
{
    if pins(kind) == 20 {
        &ORDINARY_20
    } else {
        &ORDINARY_24
    }
}

/// Whether a kind is a GAL16V8 or a GAL20V8.
pub fn is_v8(kind: Kind) -> bool
    ensures { result ≡ device.is_v8 kind }
{
    matches!(kind, Kind::Gal16V8 | Kind::Gal20V8)
}

/// Whether the even column of a registered macrocell reads Q. It reads NOT Q on every other chip.
pub fn even_reads_q(kind: Kind) -> bool
    ensures { result ≡ device.even_reads_q kind }
{
    kind == Kind::Gal22V10Q
}
