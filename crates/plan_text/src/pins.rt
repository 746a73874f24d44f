ghost use Rattle.std.specs.Prelude.{◌≡◌, ◌==◌};
ghost use Rattle.std.specs.List.{position};
ghost use Rattle.plan_text.specs.PlanText as spec;

use mig_base::{Name, PinName};
use text_lines::number;

/// The highest number of a pin in a plan.
const MOST_PIN: u32 = 99;

/// The pin that a word spells: a chip's name, a dot and a number.
pub(crate) fn pin_named(word: &[u8]) -> Option<PinName>
    ensures { result ≡ spec.pin_named word.now }
{
    match first_dot(word) {
        Some(dot) => pin_of(&word[..dot], &word[dot + 1..]),
        None => None,
    }
}

fn first_dot(word: &[u8]) -> Option<usize>
    ensures { result ≡ position (λ b. b == 46) word.now }
{
    word.iter().position(|b| *b == b'.')
}

fn pin_of(chip: &[u8], pin: &[u8]) -> Option<PinName>
    ensures { result ≡ spec.pin_of chip.now pin.now }
{
    let Some(chip) = Name::new(chip) else {
        return None;
    };
    match number(pin) {
        Some(pin) => pin_numbered(chip, pin),
        None => None,
    }
}

fn pin_numbered(chip: Name, pin: u32) -> Option<PinName>
    ensures { result ≡ spec.pin_numbered chip pin }
{
    if pin <= MOST_PIN {
        Some(PinName {
            chip,
            pin: pin as u8,
        })
    } else {
        None
    }
}
