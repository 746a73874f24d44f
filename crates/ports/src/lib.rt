//! Whether two boards have the same ports.
#![tactic(auto)]

ghost use Rattle.std.specs.Prelude.{◌≡◌, ◌&&◌, not};
ghost use Rattle.std.specs.List.{list_any};
ghost use Rattle.mig_base.specs.Boards.{is_port_kind};
ghost use Rattle.ports.specs.Lacking.{IsDifference, IsFirstLacking, is_lacking, is_same_direction, is_same_port};

use board::Board;
use mig_base::{Name, Net, NetLine, Port};

/// Whether a net of this direction is a port.
fn is_port(port: Port) -> bool
    ensures { result ≡ is_port_kind port }
{
    match port {
        Port::Inner => false,
        Port::Input | Port::Output | Port::Both => true,
    }
}

/// Whether two directions are one.
fn is_same(a: Port, b: Port) -> bool
    ensures { result ≡ is_same_direction a b }
{
    a == b
}

/// Whether two nets have one name and one direction.
fn is_equal(a: &NetLine, b: &NetLine) -> bool
    ensures { result ≡ is_same_port a.now b.now }
{
    is_same(a.port, b.port) && a.name.bytes() == b.name.bytes()
}

/// Whether one of a wiring's nets has this name and direction.
fn has(net: &Net, line: &NetLine) -> bool
    ensures { result ≡ list_any (is_same_port line.now) net.now.nets }
{
    net.nets.items().iter().any(|other| is_equal(line, other))
}

/// Whether a net is a port that a wiring hasn't with its direction.
fn lacks(net: &Net, line: &NetLine) -> bool
    ensures { result ≡ is_lacking net.now.nets line.now }
{
    is_port(line.port) && !has(net, line)
}

/// The first port of a wiring that another one hasn't with its direction.
fn first_lacking(of: &Net, other: &Net) -> Option<Name>
    ensures { IsFirstLacking of.now other.now result }
{
    let nets = of.nets.items();
    for line in nets {
        if lacks(other, line) {
            return Some(line.name);
        }
    }
    None
}

/// None exactly where two boards have the same ports, that is each has the other's port names with the same directions.
/// Else the first port of `a`, in its order, that `b` hasn't with its direction; else the first one of `b` that `a` hasn't.
pub fn same_ports(a: &Board, b: &Board) -> Option<Name>
    ensures { IsDifference a.now.net b.now.net result }
{
    let left = a.net();
    let right = b.net();
    if let Some(name) = first_lacking(left, right) {
        return Some(name);
    }
    first_lacking(right, left)
}
