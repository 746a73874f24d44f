ghost use Rattle.std.specs.Prelude.{◌≡◌, ◌∷◌, [], map};
ghost use Rattle.mig_base.specs.DeviceTables.{is_v8 as is_v8_kind};
ghost use Rattle.mig_base.specs.WellFormed.{has_mode as kind_has_mode};
ghost use Rattle.plan_text.specs.PlanText as spec;

use crate::pins::pin_named;
use mig_base::{Kind, Mode, Name, PinName, PlanChip, is_22, kind_of};
use text_lines::is;

/// What a line says, by its form alone: the head, a chip, a chip whose kind is no GAL kind, where an old unit goes, or the end.
#[derive(Clone, Copy)]
pub(crate) enum Said {
    Head,
    Chip { chip: PlanChip },
    OtherKind,
    Place { unit: PinName, at: PinName },
    Absorb { unit: PinName },
    End,
    Wrong,
}

/// What a line of these words says.
pub(crate) fn says(words: &[&[u8]]) -> Said
    ensures { result ≡ spec.says (map (λ w. w.now) words.now) }
{
    let [first, rest @ ..] = words else {
        return Said::Wrong;
    };
    if is(first, b"chip") {
        after_chip(rest)
    } else if is(first, b"place") {
        after_place(rest)
    } else if is(first, b"absorb") {
        after_absorb(rest)
    } else if is(first, b"end") {
        after_end(rest)
    } else if is(first, b"plan") {
        after_plan(rest)
    } else {
        Said::Wrong
    }
}

fn after_chip(words: &[&[u8]]) -> Said
    ensures { result ≡ spec.after_chip (map (λ w. w.now) words.now) }
{
    match words {
        [name, kind] => fixed_chip(name, kind),
        [name, kind, mode] => chip_with_mode(name, kind, mode),
        _ => Said::Wrong,
    }
}

fn fixed_chip(name: &[u8], kind: &[u8]) -> Said
    ensures { result ≡ spec.after_chip (name.now ∷ kind.now ∷ []) }
{
    match Name::new(name) {
        Some(name) => chip_of(name, gal_named(kind), Mode::Fixed),
        None => Said::Wrong,
    }
}

fn chip_with_mode(name: &[u8], kind: &[u8], mode: &[u8]) -> Said
    ensures { result ≡ spec.after_chip (name.now ∷ kind.now ∷ mode.now ∷ []) }
{
    match Name::new(name) {
        Some(name) => chip_in(name, gal_named(kind), mode_named(mode)),
        None => Said::Wrong,
    }
}

/// A chip of a GAL kind, if any, in a mode that a word names, if it does.
fn chip_in(name: Name, kind: Option<Kind>, mode: Option<Mode>) -> Said
    ensures { result ≡ spec.chip_in name kind mode }
{
    match mode {
        Some(mode) => chip_of(name, kind, mode),
        None => Said::Wrong,
    }
}

/// A chip of a GAL kind, if any, in a mode that the kind has to have.
fn chip_of(name: Name, kind: Option<Kind>, mode: Mode) -> Said
    ensures { result ≡ spec.chip_of name kind mode }
{
    let Some(kind) = kind else {
        return Said::OtherKind;
    };
    if has_mode(kind, mode) {
        Said::Chip {
            chip: PlanChip { name, kind, mode },
        }
    } else {
        Said::Wrong
    }
}

/// The GAL kind of this name.
fn gal_named(word: &[u8]) -> Option<Kind>
    ensures { result ≡ spec.gal_named word.now }
{
    match kind_of(word) {
        Some(kind) => if_gal(kind),
        None => None,
    }
}

fn if_gal(kind: Kind) -> Option<Kind>
    ensures { result ≡ spec.if_gal kind }
{
    if is_22(kind) || is_v8(kind) {
        Some(kind)
    } else {
        None
    }
}

fn is_v8(kind: Kind) -> bool
    ensures { result ≡ is_v8_kind kind }
{
    match kind {
        Kind::Gal16V8 | Kind::Gal20V8 => true,
        _ => false,
    }
}

/// Whether a kind has this mode: a V8 has the three that words name.
fn has_mode(kind: Kind, mode: Mode) -> bool
    ensures { result ≡ kind_has_mode kind mode }
{
    match mode {
        Mode::Fixed => !is_v8(kind),
        _ => is_v8(kind),
    }
}

/// The mode of this name.
fn mode_named(word: &[u8]) -> Option<Mode>
    ensures { result ≡ spec.mode_named word.now }
{
    if is(word, b"simple") {
        Some(Mode::Simple)
    } else if is(word, b"complex") {
        Some(Mode::Complex)
    } else if is(word, b"registered") {
        Some(Mode::Registered)
    } else {
        None
    }
}

fn after_place(words: &[&[u8]]) -> Said
    ensures { result ≡ spec.after_place (map (λ w. w.now) words.now) }
{
    match words {
        [unit, at] => place(unit, at),
        _ => Said::Wrong,
    }
}

fn place(unit: &[u8], at: &[u8]) -> Said
    ensures { result ≡ spec.after_place (unit.now ∷ at.now ∷ []) }
{
    let Some(unit) = pin_named(unit) else {
        return Said::Wrong;
    };
    match pin_named(at) {
        Some(at) => Said::Place { unit, at },
        None => Said::Wrong,
    }
}

fn after_absorb(words: &[&[u8]]) -> Said
    ensures { result ≡ spec.after_absorb (map (λ w. w.now) words.now) }
{
    match words {
        [unit] => absorb(unit),
        _ => Said::Wrong,
    }
}

fn absorb(unit: &[u8]) -> Said
    ensures { result ≡ spec.after_absorb (unit.now ∷ []) }
{
    match pin_named(unit) {
        Some(unit) => Said::Absorb { unit },
        None => Said::Wrong,
    }
}

fn after_end(words: &[&[u8]]) -> Said
    ensures { result ≡ spec.after_end (map (λ w. w.now) words.now) }
{
    if words.is_empty() {
        Said::End
    } else {
        Said::Wrong
    }
}

fn after_plan(words: &[&[u8]]) -> Said
    ensures { result ≡ spec.after_plan (map (λ w. w.now) words.now) }
{
    match words {
        [version] => head(version),
        _ => Said::Wrong,
    }
}

fn head(version: &[u8]) -> Said
    ensures { result ≡ spec.after_plan (version.now ∷ []) }
{
    if is(version, b"1") {
        Said::Head
    } else {
        Said::Wrong
    }
}
