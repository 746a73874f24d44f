ghost use Rattle.std.specs.Prelude.{◌≡◌, ◌<◌, ◌++◌, map, length, IfOk, OnOk};
ghost use Rattle.std.specs.List.{All};
ghost use Rattle.mig_base.specs.Boards.{At as PinAt};
ghost use Rattle.board.specs.NodeNames.{line_node, private_node, pin_name as name_of_pin, net_names as names_of_nets};

use equations::{At, NetNumbers};
use mig_base::{Items, Net, NetLine, NoMemory, Node, PinName};
use std::alloc::Global;

/// A pin by the name of its chip.
pub(crate) fn pin_name(net: &Net, at: At) -> PinName
    requires { at.0 < length net.now.chips }
    ensures { result ≡ name_of_pin net.now at }
{
    let (chip, pin) = at;
    let chips = net.chips.items();
    PinName {
        chip: chips[chip as usize].name,
        pin,
    }
}

/// Adds the names of named nets.
fn push_named(names: &mut Vec<Node>, lines: &[NetLine]) -> Result<(), NoMemory>
    ensures { OnOk result (names.new.items ≡ names.old.items ++ map line_node lines.now) }
{
    for line in lines {
        names.push(Node::Named(line.name))?;
    }
    Ok(())
}

/// Adds the names of private nets, by their pins.
fn push_private(names: &mut Vec<Node>, net: &Net, pins: &[At]) -> Result<(), NoMemory>
    requires { All (λ (q : PinAt). q.0 < length net.now.chips) pins.now }
    ensures { OnOk result (names.new.items ≡ names.old.items ++ map (private_node net.now) pins.now) }
{
    for pin in pins {
        names.push(Node::Private(pin_name(net, *pin)))?;
    }
    Ok(())
}

/// The names of the nets of a board, in node order.
pub(crate) fn net_names(
    alloc: Global,
    net: &Net,
    numbers: &NetNumbers,
) -> Result<Items<Node>, NoMemory>
    requires { numbers.now ≡ net.now }
    ensures { IfOk result (λ names. names ≡ names_of_nets net.now) }
{
    let mut names = Vec::new(alloc);
    names.push(Node::Gnd)?;
    names.push(Node::Vcc)?;
    push_named(&mut names, net.nets.items())?;
    push_private(&mut names, net, numbers.privates())?;
    Ok(Items::new(names))
}
