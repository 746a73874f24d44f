//! Pure nodes, live and absorbable units, alias nets and products of two small boards.

use crate::{UnitProducts, absorbable_of, alias_of, aliases_of, live_of, products_of, purity_of};
use mig_base::{
    Circuit, Driver, Gate, Gives, Items, Literal, NetKind, NoMemory, Part, Pull, Read, Register,
    Var, VarLit, Wire,
};
use std::alloc::Global;
use std::test::Fail;

/// A net of a board in short: its kind, its pull, its drivers.
type NetRow<'a> = (NetKind, Pull, &'a [u32]);

/// A unit in short: the nodes that enable it, its register, or else the nodes of its product.
type UnitRow<'a> = (Option<&'a [Read]>, Option<u32>, &'a [Read]);

/// A register in short: the nodes of its product, and those that reset it.
type RegisterRow<'a> = (&'a [Read], Option<&'a [Read]>);

/// The true literals of these nodes.
fn literals(alloc: Global, reads: &[Read]) -> Result<Items<Literal>, NoMemory> {
    let mut literals = Vec::new(alloc);
    for read in reads {
        literals.push(Literal {
            source: *read,
            high: true,
        })?;
    }
    Ok(Items::new(literals))
}

/// The product of these nodes, or constant 0.
fn row(alloc: Global, reads: Option<&[Read]>) -> Result<Gate, NoMemory> {
    match reads {
        None => Ok(Gate::Never),
        Some(reads) => Ok(Gate::Product(literals(alloc, reads)?)),
    }
}

/// The sum of one product of these nodes.
fn terms(alloc: Global, reads: &[Read]) -> Result<Items<Items<Literal>>, NoMemory> {
    let mut terms = Vec::new(alloc);
    terms.push(literals(alloc, reads)?)?;
    Ok(Items::new(terms))
}

/// What a unit gives: its register's Q, or a product.
fn gives(alloc: Global, register: Option<u32>, reads: &[Read]) -> Result<Gives, NoMemory> {
    match register {
        Some(register) => Ok(Gives::Visible(register)),
        None => Ok(Gives::Sum(terms(alloc, reads)?)),
    }
}

fn nets_of(alloc: Global, rows: &[NetRow]) -> Result<Items<Wire>, NoMemory> {
    let mut nets = Vec::new(alloc);
    for row in rows {
        let drivers = Items::new(row.2.to_vec(alloc)?);
        nets.push(Wire {
            kind: row.0,
            pull: row.1,
            drivers,
        })?;
    }
    Ok(Items::new(nets))
}

fn units_of(alloc: Global, rows: &[UnitRow]) -> Result<Items<Driver>, NoMemory> {
    let mut units = Vec::new(alloc);
    for unit in rows {
        let enable = row(alloc, unit.0)?;
        let gives = gives(alloc, unit.1, unit.2)?;
        units.push(Driver {
            enable,
            gives,
            low: true,
        })?;
    }
    Ok(Items::new(units))
}

fn registers_of(alloc: Global, rows: &[RegisterRow]) -> Result<Items<Register>, NoMemory> {
    let mut registers = Vec::new(alloc);
    for register in rows {
        let terms = terms(alloc, register.0)?;
        let reset = row(alloc, register.1)?;
        registers.push(Register {
            clock: 0,
            terms,
            low: false,
            reset,
            preset: Gate::Never,
        })?;
    }
    Ok(Items::new(registers))
}

fn board(
    alloc: Global,
    nets: &[NetRow],
    units: &[UnitRow],
    registers: &[RegisterRow],
    ports: &[u32],
) -> Result<Circuit, NoMemory> {
    let nets = nets_of(alloc, nets)?;
    let units = units_of(alloc, units)?;
    let registers = registers_of(alloc, registers)?;
    Ok(Circuit {
        nets,
        units,
        registers,
        ports: Items::new(ports.to_vec(alloc)?),
    })
}

const A: Read = Read::OfNet(1);

const B: Read = Read::OfNet(2);

const F: Read = Read::OfNet(8);

const P: Read = Read::OfRegister(0);

/// A board with a pure register that reads itself, and one that a Both port resets.
fn mixed(alloc: Global) -> Result<Circuit, NoMemory> {
    let nets: [NetRow; 9] = [
        (NetKind::Ground, Pull::Free, &[]),
        (NetKind::Handed(0), Pull::Free, &[]),
        (NetKind::Shared(1), Pull::Up, &[0]),
        (NetKind::Inner, Pull::Free, &[]),
        (NetKind::Inner, Pull::Up, &[]),
        (NetKind::Inner, Pull::Free, &[1]),
        (NetKind::Inner, Pull::Down, &[1]),
        (NetKind::Inner, Pull::Up, &[0, 1]),
        (NetKind::Inner, Pull::Free, &[2]),
    ];
    let units: [UnitRow; 3] = [
        (Some(&[]), Some(0), &[]),
        (Some(&[A]), None, &[P]),
        (Some(&[]), Some(1), &[]),
    ];
    let registers: [RegisterRow; 2] = [(&[P, A, P], None), (&[F], Some(&[B]))];
    board(alloc, &nets, &units, &registers, &[])
}

/// An Output and an Input port, inner nets, and a register that one of them resets and whose unit drives no net.
fn chain(alloc: Global) -> Result<Circuit, NoMemory> {
    let nets: [NetRow; 5] = [
        (NetKind::Inner, Pull::Free, &[0]),
        (NetKind::Inner, Pull::Free, &[1]),
        (NetKind::Inner, Pull::Free, &[2]),
        (NetKind::Inner, Pull::Free, &[4]),
        (NetKind::Handed(0), Pull::Free, &[5]),
    ];
    let units: [UnitRow; 6] = [
        (Some(&[]), None, &[A]),
        (Some(&[]), None, &[P]),
        (Some(&[]), None, &[]),
        (None, Some(0), &[]),
        (Some(&[]), None, &[A]),
        (None, None, &[]),
    ];
    let registers: [RegisterRow; 1] = [(&[], Some(&[B]))];
    board(alloc, &nets, &units, &registers, &[0, 4])
}

/// Pure are GND, an Input port, pulled nets with one driver at most, and what only pure nodes drive always.
#[test]
fn finds_pure_nodes(rt: HostRuntime) -> Result<(), Fail> {
    let pure = purity_of(rt.alloc(), &mixed(rt.alloc())?)?;
    assert_eq!(rt;
        pure.nets.items(),
        [true, true, false, false, true, false, true, false, false].as_slice()
    );
    assert_eq!(rt; pure.registers.items(), [true, false].as_slice());
    Ok(())
}

/// An alias net has a registered unit as its only driver and is no Both port.
#[test]
fn finds_alias_nets(rt: HostRuntime) -> Result<(), Fail> {
    let board = mixed(rt.alloc())?;
    let aliases = aliases_of(rt.alloc(), &board)?;
    assert_eq!(rt; aliases.items().len(), 9);
    assert_eq!(rt; alias_of(&board, 2), None);
    assert_eq!(rt; alias_of(&board, 8), Some((1, false)));
    Ok(())
}

/// Live are the driver of an Output port and all that it depends on, over a register and its reset too.
#[test]
fn finds_live_units(rt: HostRuntime) -> Result<(), Fail> {
    let live = live_of(rt.alloc(), &chain(rt.alloc())?)?;
    assert_eq!(rt;
        live.items(),
        [true, true, true, true, false, false].as_slice()
    );
    Ok(())
}

/// Absorbable are gates on inner nets, dead ones too.
#[test]
fn finds_absorbable_units(rt: HostRuntime) -> Result<(), Fail> {
    let absorbable = absorbable_of(rt.alloc(), &chain(rt.alloc())?)?;
    assert_eq!(rt;
        absorbable.items(),
        [false, true, true, false, true, false].as_slice()
    );
    Ok(())
}

/// The literals of the only product of a part, if it has just one.
fn lits_of(products: &[UnitProducts], unit: usize, part: Part) -> &[VarLit] {
    match products.get(unit) {
        None => &[],
        Some(parts) => match parts.of(part) {
            [product] => product.lits.items(),
            _ => &[],
        },
    }
}

/// Whether these are the same literals.
fn same(lits: &[VarLit], want: &[VarLit]) -> bool {
    if lits.len() != want.len() {
        return false;
    }
    for place in 0..lits.len() {
        if lits[place] != want[place] {
            return false;
        }
    }
    true
}

/// Literals stand in variable order and once, and one of an alias net is one of its register, which goes by its unit.
#[test]
fn orders_products(rt: HostRuntime) -> Result<(), Fail> {
    let products = products_of(rt.alloc(), &mixed(rt.alloc())?, &[0, 2])?;
    let first = [lit(Var::Net(1), true), lit(Var::Reg(0), true)];
    assert!(rt; same(lits_of(products.items(), 0, Part::Logic), &first));
    assert!(rt;
        same(
            lits_of(products.items(), 2, Part::Logic),
            &[lit(Var::Reg(2), false)]
        )
    );
    assert!(rt;
        same(
            lits_of(products.items(), 2, Part::Reset),
            &[lit(Var::Net(2), true)]
        )
    );
    Ok(())
}

fn lit(var: Var, high: bool) -> VarLit {
    VarLit { var, high }
}
