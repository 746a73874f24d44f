ghost use Rattle.std.specs.Prelude.{◌≡◌, ◌<◌, ◌+◌, ◌&&◌, map, length, Option, IfOk, IfSome, nat_le, not, ◌==◌, ◌||◌, ◌/◌, Some, None, if◌then◌else◌};
ghost use Rattle.std.specs.List.{list_any};
ghost use Rattle.std.specs.Str.{bytes_eq};
ghost use Rattle.mig_base.specs.BoardText as spec;
ghost use Rattle.net_text.specs.Statements.{line_of, says_of, all_says};

use crate::lines::BoardLine;
use crate::says::Said;
use mig_base::{ChipLine, Kind, MOST_CHIPS, MOST_NETS, Name, NetError, NetLine, Port, pins};
use text_lines::is;

/// What is wrong with a line behind these, which say these nets and chips.
pub(crate) fn refusal(
    before: &[BoardLine],
    nets: &[NetLine],
    chips: &[ChipLine],
    line: &BoardLine,
) -> Option<NetError>
    requires nets_said { nets.now ≡ spec.nets_in (all_says before.now) }
    requires chips_said { chips.now ≡ spec.chips_in (all_says before.now) }
    ensures { result ≡ spec.line_refusal (map line_of before.now) (line_of line.now) }
{
    if is_out_of_order(before, line) {
        return Some(NetError::Line { n: line.n });
    }
    said_refusal(before, nets, chips, line)
}

/// A first line that is no head, or a line behind the end.
fn is_out_of_order(before: &[BoardLine], line: &BoardLine) -> bool
    ensures { result ≡ (((length before.now == 0) && not (spec.is_head (says_of line.now.says))) || list_any (λ l. spec.ends (says_of l.says)) before.now) }
{
    (before.is_empty() && !is_head(&line.says)) || any_ends(before)
}

/// What is wrong with a line, by what it says.
fn said_refusal(
    before: &[BoardLine],
    nets: &[NetLine],
    chips: &[ChipLine],
    line: &BoardLine,
) -> Option<NetError>
    requires nets_said { nets.now ≡ spec.nets_in (all_says before.now) }
    requires chips_said { chips.now ≡ spec.chips_in (all_says before.now) }
    ensures { result ≡ spec.said_refusal line.now.n (all_says before.now) (says_of line.now.says) }
{
    let n = line.n;
    match line.says {
        Said::Wrong => Some(NetError::Line { n }),
        Said::Head { .. } => refuse(!before.is_empty(), NetError::Line { n }),
        Said::End => None,
        Said::Net { name, .. } => net_refusal(nets, n, name.bytes()),
        Said::Chip { name, kind } => chip_refusal(chips, n, name.bytes(), kind),
        Said::Pin { chip, pin, net } => pin_refusal(
            before,
            n,
            chip.bytes(),
            pin,
            find_chip(chips, chip.bytes()),
            place(nets, net.bytes()),
        ),
        Said::Pull { net, .. } => pull_refusal(before, nets, n, net.bytes()),
    }
}

/// The error, where something is wrong.
fn refuse(wrong: bool, error: NetError) -> Option<NetError>
    ensures { result ≡ spec.refuse wrong error }
{
    wrong.then_some(error)
}

fn net_refusal(nets: &[NetLine], n: u32, name: &[u8]) -> Option<NetError>
    ensures { result ≡ spec.net_refusal n nets.now name.now }
{
    if nets.len() >= MOST_NETS {
        return Some(NetError::NetsOver { n });
    }
    refuse(place(nets, name).is_some(), NetError::NameTwice { n })
}

fn chip_refusal(chips: &[ChipLine], n: u32, name: &[u8], kind: Option<Kind>) -> Option<NetError>
    ensures { result ≡ spec.chip_refusal n chips.now name.now kind }
{
    if kind.is_none() {
        return Some(NetError::KindUnknown { n });
    }
    if chips.len() >= MOST_CHIPS {
        return Some(NetError::ChipsOver { n });
    }
    refuse(any_chip(chips, name), NetError::NameTwice { n })
}

fn pin_refusal(
    before: &[BoardLine],
    n: u32,
    chip: &[u8],
    pin: u32,
    line: Option<ChipLine>,
    net: Option<usize>,
) -> Option<NetError>
    ensures { result ≡ spec.pin_refusal_at n (all_says before.now) chip.now pin line net }
{
    let Some(line) = line else {
        return Some(NetError::ChipUnknown { n });
    };
    let last = pins(line.kind) as u32;
    if !is_pin(last, pin) {
        return Some(NetError::PinUnknown { n });
    }
    let Some(net) = net else {
        return Some(NetError::NetUnknown { n });
    };
    if any_on_pin(before, chip, pin) {
        return Some(NetError::PinTwice { n });
    }
    refuse(is_power_elsewhere(last, pin, net), NetError::PowerPin { n })
}

fn is_pin(last: u32, pin: u32) -> bool
    ensures { result ≡ (nat_le 1 pin && nat_le pin last) }
{
    1 <= pin && pin <= last
}

/// The ground pin on a net other than GND, or the power pin on one other than VCC.
fn is_power_elsewhere(last: u32, pin: u32, net: usize) -> bool
    ensures { result ≡ (((pin == last / 2) && not (net == 0)) || ((pin == last) && not (net == 1))) }
{
    (pin == last / 2 && net != 0) || (pin == last && net != 1)
}

fn pull_refusal(before: &[BoardLine], nets: &[NetLine], n: u32, net: &[u8]) -> Option<NetError>
    ensures { result ≡ spec.pull_refusal n (all_says before.now) nets.now net.now }
{
    if any_first_version(before) {
        return Some(NetError::Line { n });
    }
    if place(nets, net).is_none() {
        return Some(NetError::NetUnknown { n });
    }
    if any_pulls(before, net) {
        return Some(NetError::PullTwice { n });
    }
    refuse(cant_pull(nets, net), NetError::PullNet { n })
}

/// The number of the net of this name: 0 is GND, 1 is VCC, 2 the first named net.
pub(crate) fn place(nets: &[NetLine], name: &[u8]) -> Option<usize>
    ensures { result ≡ spec.place_named name.now (spec.net_names nets.now) }
{
    if is(name, b"GND") {
        Some(0)
    } else if is(name, b"VCC") {
        Some(1)
    } else {
        index_of(nets, name).map(|k| k + 2)
    }
}

/// The index of the net of this name.
fn index_of(nets: &[NetLine], name: &[u8]) -> Option<usize>
    ensures value { result ≡ spec.place_named name.now (map (λ l. l.name) nets.now) }
    ensures within { IfSome result (λ k. k < length nets.now) }
{
    for (k, line) in nets.iter().enumerate() {
        if is(name, line.name.bytes()) {
            return Some(k);
        }
    }
    None
}

/// The chip of this name.
fn find_chip(chips: &[ChipLine], name: &[u8]) -> Option<ChipLine>
    ensures { result ≡ spec.chip_named name.now chips.now }
{
    for line in chips {
        if is(name, line.name.bytes()) {
            return Some(*line);
        }
    }
    None
}

/// Whether a chip has this name.
fn any_chip(chips: &[ChipLine], name: &[u8]) -> bool
    ensures { result ≡ list_any (λ c. bytes_eq name.now c.name) chips.now }
{
    chips.iter().any(|c| is(name, c.name.bytes()))
}

/// GND, VCC and Input ports have their own levels.
fn cant_pull(nets: &[NetLine], net: &[u8]) -> bool
    ensures { result ≡ spec.cant_pull nets.now net.now }
{
    is(net, b"GND") || is(net, b"VCC") || any_input(nets, net)
}

fn any_input(nets: &[NetLine], net: &[u8]) -> bool
    ensures { result ≡ list_any (λ l. bytes_eq net.now l.name && spec.is_input_port l.port) nets.now }
{
    nets.iter()
        .any(|l| is(net, l.name.bytes()) && is_input(l.port))
}

fn is_input(port: Port) -> bool
    ensures { result ≡ spec.is_input_port port }
{
    match port {
        Port::Input => true,
        _ => false,
    }
}

fn is_head(said: &Said) -> bool
    ensures { result ≡ spec.is_head (says_of said.now) }
{
    match said {
        Said::Head { .. } => true,
        _ => false,
    }
}

/// Whether one of the lines ends the text.
pub(crate) fn any_ends(lines: &[BoardLine]) -> bool
    ensures { result ≡ list_any (λ l. spec.ends (says_of l.says)) lines.now }
{
    lines.iter().any(|l| ends(&l.says))
}

fn ends(said: &Said) -> bool
    ensures { result ≡ spec.ends (says_of said.now) }
{
    match said {
        Said::End => true,
        _ => false,
    }
}

fn any_first_version(lines: &[BoardLine]) -> bool
    ensures { result ≡ list_any (λ l. spec.is_version 1 (says_of l.says)) lines.now }
{
    lines.iter().any(|l| is_first_version(&l.says))
}

fn is_first_version(said: &Said) -> bool
    ensures { result ≡ spec.is_version 1 (says_of said.now) }
{
    match said {
        Said::Head { version } => *version == 1,
        _ => false,
    }
}

fn any_on_pin(lines: &[BoardLine], chip: &[u8], pin: u32) -> bool
    ensures { result ≡ list_any (λ l. spec.has_pin chip.now pin (says_of l.says)) lines.now }
{
    lines.iter().any(|l| is_on_pin(&l.says, chip, pin))
}

/// Whether a line puts this pin of the chip on a net.
pub(crate) fn is_on_pin(said: &Said, chip: &[u8], pin: u32) -> bool
    ensures { result ≡ spec.has_pin chip.now pin (says_of said.now) }
{
    match said {
        Said::Pin {
            chip: other,
            pin: number,
            ..
        } => is(chip, other.bytes()) && pin == *number,
        _ => false,
    }
}

fn any_pulls(lines: &[BoardLine], net: &[u8]) -> bool
    ensures { result ≡ list_any (λ l. spec.pulls net.now (says_of l.says)) lines.now }
{
    lines.iter().any(|l| is_pull_of(&l.says, net))
}

/// Whether a line pulls this net.
pub(crate) fn is_pull_of(said: &Said, net: &[u8]) -> bool
    ensures { result ≡ spec.pulls net.now (says_of said.now) }
{
    match said {
        Said::Pull { net: other, .. } => is(net, other.bytes()),
        _ => false,
    }
}
