ghost use Rattle.std.specs.Prelude.{◌≡◌, ◌≤◌, ◌<◌, ◌+◌, IsTrue, length};
ghost use Rattle.mig_base.specs.DeviceTables.{is_v8, top_pin as top_pin_of};
ghost use Rattle.mig_base.specs.Cells as cells;

use devices::{array_size, top_pin};
use mig_base::{Kind, Mode};

/// The fuses behind the array: XOR, signature, AC1, row disable, SYN and AC0.
const SETTINGS: usize = 146;

/// The place of the first AC1 fuse behind the array.
const AC1: usize = 72;

/// The place of the first row disable fuse.
const DISABLE: usize = 80;

/// The place of SYN.
const SYN: usize = 144;

/// The place of AC0.
const AC0: usize = 145;

/// The number of fuses.
pub fn fuse_count(kind: Kind) -> usize
    requires { IsTrue (is_v8 kind) }
    ensures { result ≡ cells.array_size kind + 146 }
{
    array_size(kind) + SETTINGS
}

/// A fuse behind the array, counted from its end on.
fn setting(kind: Kind, fuses: &[bool], place: usize) -> bool
    requires kind { IsTrue (is_v8 kind) }
    requires count { length fuses.now ≡ cells.array_size kind + 146 }
    requires place { place < 146 }
    ensures { result ≡ cells.bit_at fuses.now (cells.array_size kind + place) }
{
    fuses[array_size(kind) + place]
}

/// Whether the macrocell of a pin has its XOR fuse blown.
pub fn xor(kind: Kind, fuses: &[bool], pin: u8) -> bool
    requires kind { IsTrue (is_v8 kind) }
    requires count { length fuses.now ≡ cells.array_size kind + 146 }
    requires pin { (pin ≤ top_pin_of kind) × (top_pin_of kind < pin + 8) }
    ensures { result ≡ cells.xor_at kind fuses.now pin }
{
    setting(kind, fuses, (top_pin(kind) - pin) as usize)
}

/// Whether the macrocell of a pin has its AC1 fuse blown.
pub fn ac1(kind: Kind, fuses: &[bool], pin: u8) -> bool
    requires kind { IsTrue (is_v8 kind) }
    requires count { length fuses.now ≡ cells.array_size kind + 146 }
    requires pin { (pin ≤ top_pin_of kind) × (top_pin_of kind < pin + 8) }
    ensures { result ≡ cells.ac1_at kind fuses.now pin }
{
    setting(kind, fuses, AC1 + (top_pin(kind) - pin) as usize)
}

/// Whether a row stands as its fuses say. It is constant 0 where its disable fuse is 0.
pub fn is_enabled(kind: Kind, fuses: &[bool], row: usize) -> bool
    requires kind { IsTrue (is_v8 kind) }
    requires count { length fuses.now ≡ cells.array_size kind + 146 }
    requires row { row < 64 }
    ensures { result ≡ cells.bit_at fuses.now (cells.array_size kind + 80 + row) }
{
    setting(kind, fuses, DISABLE + row)
}

/// The mode that SYN and AC0 say. `None` where both are 0.
pub fn mode_of(kind: Kind, fuses: &[bool]) -> Option<Mode>
    requires kind { IsTrue (is_v8 kind) }
    requires count { length fuses.now ≡ cells.array_size kind + 146 }
    ensures { result ≡ cells.v8_mode (cells.syn kind fuses.now) (cells.ac0 kind fuses.now) }
{
    match (setting(kind, fuses, SYN), setting(kind, fuses, AC0)) {
        (true, false) => Some(Mode::Simple),
        (true, true) => Some(Mode::Complex),
        (false, true) => Some(Mode::Registered),
        (false, false) => None,
    }
}
