ghost use Rattle.std.specs.Prelude.{◌≡◌, ◌∷◌, [], map};
ghost use Rattle.mig_base.specs.BoardText as spec;
ghost use Rattle.net_text.specs.Statements.{says_of};

use mig_base::{Kind, Name, Port, Pull, kind_of};
use text_lines::{is, number};

/// What a line says, by its form alone. A chip may have an unknown kind.
#[derive(Clone, Copy)]
pub(crate) enum Said {
    Head { version: u32 },
    Net { name: Name, port: Port },
    Chip { name: Name, kind: Option<Kind> },
    Pin { chip: Name, pin: u32, net: Name },
    Pull { net: Name, pull: Pull },
    End,
    Wrong,
}

/// What a line of these words says.
pub(crate) fn says(words: &[&[u8]]) -> Said
    ensures { says_of result ≡ spec.says (map (λ w. w.now) words.now) }
{
    let [first, rest @ ..] = words else {
        return Said::Wrong;
    };
    if is(first, b"net") {
        after_net(rest)
    } else if is(first, b"chip") {
        after_chip(rest)
    } else if is(first, b"pin") {
        after_pin(rest)
    } else if is(first, b"pull") {
        after_pull(rest)
    } else if is(first, b"end") {
        after_end(rest)
    } else if is(first, b"board") {
        after_board(rest)
    } else {
        Said::Wrong
    }
}

fn after_net(words: &[&[u8]]) -> Said
    ensures { says_of result ≡ spec.after_net (map (λ w. w.now) words.now) }
{
    match words {
        [name] => inner_net(name),
        [name, port] => port_net(name, port),
        _ => Said::Wrong,
    }
}

fn inner_net(name: &[u8]) -> Said
    ensures { says_of result ≡ spec.after_net (name.now ∷ []) }
{
    match Name::new(name) {
        Some(name) => Said::Net {
            name,
            port: Port::Inner,
        },
        None => Said::Wrong,
    }
}

fn port_net(name: &[u8], port: &[u8]) -> Said
    ensures { says_of result ≡ spec.after_net (name.now ∷ port.now ∷ []) }
{
    let Some(name) = Name::new(name) else {
        return Said::Wrong;
    };
    match port_of(port) {
        Some(port) => Said::Net { name, port },
        None => Said::Wrong,
    }
}

/// The direction of this name.
fn port_of(word: &[u8]) -> Option<Port>
    ensures { result ≡ spec.port_named word.now }
{
    if is(word, b"in") {
        Some(Port::Input)
    } else if is(word, b"out") {
        Some(Port::Output)
    } else if is(word, b"io") {
        Some(Port::Both)
    } else {
        None
    }
}

fn after_chip(words: &[&[u8]]) -> Said
    ensures { says_of result ≡ spec.after_chip (map (λ w. w.now) words.now) }
{
    match words {
        [name, kind] => chip(name, kind),
        _ => Said::Wrong,
    }
}

fn chip(name: &[u8], kind: &[u8]) -> Said
    ensures { says_of result ≡ spec.after_chip (name.now ∷ kind.now ∷ []) }
{
    match Name::new(name) {
        Some(name) => Said::Chip {
            name,
            kind: kind_of(kind),
        },
        None => Said::Wrong,
    }
}

fn after_pin(words: &[&[u8]]) -> Said
    ensures { says_of result ≡ spec.after_pin (map (λ w. w.now) words.now) }
{
    match words {
        [chip, pin, net] => pin_on(chip, pin, net),
        _ => Said::Wrong,
    }
}

fn pin_on(chip: &[u8], pin: &[u8], net: &[u8]) -> Said
    ensures { says_of result ≡ spec.after_pin (chip.now ∷ pin.now ∷ net.now ∷ []) }
{
    let Some(chip) = Name::new(chip) else {
        return Said::Wrong;
    };
    let Some(net) = Name::new(net) else {
        return Said::Wrong;
    };
    match number(pin) {
        Some(pin) => Said::Pin { chip, pin, net },
        None => Said::Wrong,
    }
}

fn after_pull(words: &[&[u8]]) -> Said
    ensures { says_of result ≡ spec.after_pull (map (λ w. w.now) words.now) }
{
    match words {
        [net, pull] => pull_of(net, pull),
        _ => Said::Wrong,
    }
}

fn pull_of(net: &[u8], pull: &[u8]) -> Said
    ensures { says_of result ≡ spec.after_pull (net.now ∷ pull.now ∷ []) }
{
    let Some(net) = Name::new(net) else {
        return Said::Wrong;
    };
    if is(pull, b"up") {
        Said::Pull {
            net,
            pull: Pull::Up,
        }
    } else if is(pull, b"down") {
        Said::Pull {
            net,
            pull: Pull::Down,
        }
    } else {
        Said::Wrong
    }
}

fn after_end(words: &[&[u8]]) -> Said
    ensures { says_of result ≡ spec.after_end (map (λ w. w.now) words.now) }
{
    if words.is_empty() {
        Said::End
    } else {
        Said::Wrong
    }
}

fn after_board(words: &[&[u8]]) -> Said
    ensures { says_of result ≡ spec.after_board (map (λ w. w.now) words.now) }
{
    match words {
        [version] => head(version),
        _ => Said::Wrong,
    }
}

fn head(version: &[u8]) -> Said
    ensures { says_of result ≡ spec.after_board (version.now ∷ []) }
{
    if is(version, b"1") {
        Said::Head { version: 1 }
    } else if is(version, b"2") {
        Said::Head { version: 2 }
    } else {
        Said::Wrong
    }
}
