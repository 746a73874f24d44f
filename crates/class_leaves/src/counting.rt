ghost use Rattle.std.specs.Prelude.{◌≡◌, ◌<◌, ◌≤◌, ◌+◌, ◌*◌, ◌^◌, ◌||◌, true, [], IfOk, length, map};
ghost use Rattle.leaves.specs.Leaves.{leaves_from, width as width_of};
ghost use Rattle.class_leaves.specs.PairsAt.{AreWithin};
ghost use Rattle.mig_base.specs.Boards.{is_handed as is_handed_port};
ghost use Rattle.board.specs.Joined.{equations_of};
ghost use Rattle.structure.specs.Pure.{IsPure};
ghost use Rattle.mig_base.specs.declared.circuit.Read.TheVariants.{OfRegister};
ghost use Rattle.class_leaves.specs.ClassLeaves.{IsLeavesOf, class_leaves as leaves_of_classes, class_end, class_range as range_of_class, next_leaf as leaf_behind, next_place as place_behind, handed_ports as ports_handed, port_range as range_of_port};
ghost use Rattle.class_leaves.specs.Pures.{AreLed, ArePures, ArePuresOf, ArePureClasses};

use crate::Leaves;
use bdd::NoNode;
use board::Board;
use leaves::{Leaf, Range};
use mig_base::{Items, Net, Port, Read};
use std::alloc::Global;

/// Whether a register of a board is pure.
fn is_pure(board: &Board, register: u32) -> bool
    requires { register < length (equations_of board.now).registers }
    ensures yes { result ≡ true → IsPure (equations_of board.now) (OfRegister register) }
    ensures no { IsPure (equations_of board.now) (OfRegister register) → result ≡ true }
{
    board.is_pure(board.var(Read::OfRegister(register)))
}

/// Whether each register of a board is pure.
fn pures_of(alloc: Global, board: &Board) -> Result<Vec<bool>, NoNode>
    requires { length (equations_of board.now).registers < 2 ^ 32 }
    ensures { IfOk result (λ pures. ArePuresOf (equations_of board.now) pures.items) }
{
    let mut pures = Vec::new(alloc);
    let count = board.registers().len() as u32;
    for register in 0..count {
        pures.push(is_pure(board, register))?;
    }
    Ok(pures)
}

/// Whether each register of two boards is pure, those of the first board before those of the second.
pub fn pure_registers(alloc: Global, a: &Board, b: &Board) -> Result<Vec<bool>, NoNode>
    requires left { length (equations_of a.now).registers < 2 ^ 32 }
    requires right { length (equations_of b.now).registers < 2 ^ 32 }
    ensures { IfOk result (λ pures. ArePures a.now b.now pures.items) }
{
    let mut pures = pures_of(alloc, a)?;
    let others = pures_of(alloc, b)?;
    pures.extend_from_slice(others.as_slice())?;
    Ok(pures)
}

/// Whether one of two holds.
fn either(a: bool, b: bool) -> bool
    ensures { result ≡ (a || b) }
{
    a || b
}

/// Whether a register of each class is pure.
pub fn pure_classes(alloc: Global, pures: &[bool], classes: &[u32]) -> Result<Vec<bool>, NoNode>
    requires count { length pures.now ≡ length classes.now }
    requires led { AreLed classes.now }
    ensures { IfOk result (λ bits. ArePureClasses pures.now classes.now bits.items) }
{
    let mut bits = vec![in alloc; false; classes.len()]?;
    for (i, class) in classes.iter().enumerate() {
        let class = *class as usize;
        let is_pure = either(bits[class], pures[i]);
        bits[class] = is_pure;
    }
    Ok(bits)
}

/// How many variables a leaf has.
fn width(range: Range) -> u32
    ensures { result ≡ width_of range }
{
    match range {
        Range::Bit => 1,
        Range::OrX | Range::OrZ => 2,
    }
}

/// The range of a class that has a pure register or not.
fn class_range(is_pure: bool) -> Range
    ensures { result ≡ range_of_class is_pure }
{
    if is_pure { Range::Bit } else { Range::OrX }
}

/// The range of a handed port.
fn port_range(port: Port) -> Range
    ensures { result ≡ range_of_port port }
{
    match port {
        Port::Both => Range::OrZ,
        Port::Inner | Port::Input | Port::Output => Range::Bit,
    }
}

/// Whether a port of this direction is handed a level.
fn is_handed(port: Port) -> bool
    ensures { result ≡ is_handed_port port }
{
    match port {
        Port::Input | Port::Both => true,
        Port::Inner | Port::Output => false,
    }
}

/// The leaf of a register of this class behind these leaves: a new one for the first of its class, else that of the first.
fn next_leaf(bits: &[bool], place: u32, done: &[Leaf], class: usize) -> Leaf
    requires within { class ≤ length done.now }
    requires bits { class < length bits.now }
    ensures { result ≡ leaf_behind bits.now place done.now class }
{
    if class == done.len() {
        let range = class_range(bits[class]);
        return Leaf { place, range };
    }
    done[class]
}

/// The first variable behind the leaf of such a register.
fn next_place(bits: &[bool], place: u32, done: &[Leaf], class: usize) -> u32
    requires bits { class < length bits.now }
    requires fits { place + 2 < 2 ^ 32 }
    ensures { result ≡ place_behind bits.now place done.now class }
{
    if class == done.len() {
        return place + width(class_range(bits[class]));
    }
    place
}

/// The leaves of the registers, and the first variable behind them.
fn register_leaves(
    alloc: Global,
    bits: &[bool],
    classes: &[u32],
) -> Result<(Vec<Leaf>, u32), NoNode>
    requires led { AreLed classes.now }
    requires count { length bits.now ≡ length classes.now }
    requires fits { 2 * length classes.now < 2 ^ 32 }
    ensures leaves { IfOk result (λ made. made.0.items ≡ leaves_of_classes bits.now 0 [] classes.now) }
    ensures end { IfOk result (λ made. made.1 ≡ class_end bits.now 0 [] classes.now) }
    ensures within { IfOk result (λ made. AreWithin (2 * length classes.now) made.0.items) }
    ensures bound { IfOk result (λ made. made.1 ≤ 2 * length classes.now) }
{
    let mut place = 0;
    let mut leaves: Vec<Leaf> = Vec::new(alloc);
    for class in classes {
        let class = *class as usize;
        let leaf = next_leaf(bits, place, leaves.as_slice(), class);
        place = next_place(bits, place, leaves.as_slice(), class);
        leaves.push(leaf)?;
    }
    Ok((leaves, place))
}

/// The directions of a wiring's handed ports, in board order.
pub fn handed_ports(alloc: Global, net: &Net) -> Result<Vec<Port>, NoNode>
    ensures { IfOk result (λ ports. ports.items ≡ ports_handed net.now) }
{
    let nets = net.nets.items();
    let ports = nets
        .iter()
        .filter(|l| is_handed(l.port))
        .map(|l| l.port)
        .collect(alloc)?;
    Ok(ports)
}

/// The leaves of handed ports, from this variable on.
fn port_leaves(alloc: Global, ports: &[Port], first: u32) -> Result<Vec<Leaf>, NoNode>
    requires fits { first + 2 * length ports.now < 2 ^ 32 }
    ensures leaves { IfOk result (λ made. made.items ≡ leaves_from first (map range_of_port ports.now)) }
    ensures within { IfOk result (λ made. AreWithin (first + 2 * length ports.now) made.items) }
{
    let mut place = first;
    let mut leaves = Vec::new(alloc);
    for port in ports {
        let range = port_range(*port);
        leaves.push(Leaf { place, range })?;
        place += width(range);
    }
    Ok(leaves)
}

/// The leaves of a matching, from the directions of the first board's handed ports and whether each class has a pure register.
pub fn leaves_of(
    alloc: Global,
    ports: &[Port],
    bits: &[bool],
    classes: &[u32],
) -> Result<Leaves, NoNode>
    requires led { AreLed classes.now }
    requires count { length bits.now ≡ length classes.now }
    requires fits { 2 * length classes.now + 2 * length ports.now < 2 ^ 32 }
    ensures leaves { IfOk result (IsLeavesOf ports.now bits.now classes.now) }
    ensures registers { IfOk result (λ made. AreWithin (2 * length classes.now + 2 * length ports.now) made.registers) }
    ensures ports { IfOk result (λ made. AreWithin (2 * length classes.now + 2 * length ports.now) made.ports) }
{
    let (registers, place) = register_leaves(alloc, bits, classes)?;
    let ports = port_leaves(alloc, ports, place)?;
    Ok(Leaves {
        registers: Items::new(registers),
        ports: Items::new(ports),
    })
}
