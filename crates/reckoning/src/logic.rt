//! Literals, products, sums, rows and drives over a table of triples.
ghost use Rattle.std.specs.Prelude.{◌≡◌, ◌++◌, false, List, IfOk};
ghost use Rattle.bdd.specs.Tree.{Point};
ghost use Rattle.bdd.specs.Diagram.{IsCanonical, IsConstant, Keeps};
ghost use Rattle.mig_base.specs.declared.levels.Level.{Level as LevelOf};
ghost use Rattle.mig_base.specs.declared.levels.Level.TheVariants.{X};
ghost use Rattle.mig_base.specs.declared.circuit.Levels.{Levels as LevelsOf};
ghost use Rattle.mig_base.specs.Levels.{and3 as and_of, or3 as or_of, not3 as not_of};
ghost use Rattle.mig_base.specs.Values.{node_level, literal_value as value_of_literal, product_value as value_of_product, sum_value as value_of_sum, row_value as value_of_row, inverted as inverted_if, product_reads, sum_reads, row_reads};
ghost use Rattle.mig_base.specs.Reads.{gives_reads};
ghost use Rattle.level_laws.specs.Settled.{drive_level as level_driven, gives_level as level_given};
ghost use Rattle.reckoning.specs.Triples.{IsTriple, IsValue, Says, Means, AreTriples, PlaceSays, Allows};
ghost use Rattle.reckoning.specs.Tables.{IsTable, NodeSays, IsValueOf, IsTripleOf};
ghost use Rattle.reckoning.specs.Steps.{IsMadeBy, IsGated, IsWired};

use crate::triples::{Table, Three, Value};
use bdd::{Graph, NoNode};
use mig_base::{Driver, Gate, Gives, Items, Literal, Read};

/// The triple of a level that is always X.
pub(crate) fn unknown(graph: &Graph) -> Three
    ensures triple { IsTriple graph.now result }
    ensures says { (p : Point) → Says graph.now result p X }
    ensures known { IsConstant graph.now false result.float }
    ensures canonical { IsCanonical graph.now }
{
    let never = graph.constant(false);
    Three {
        one: never,
        zero: never,
        float: never,
    }
}

/// The triple at a place, and X where there is none.
pub(crate) fn three_at(graph: &Graph, triples: &[Three], place: u32) -> Three
    requires { AreTriples graph.now triples.now }
    ensures triple { IsTriple graph.now result }
    ensures says { (p : Point) (level : LevelOf) → PlaceSays graph.now triples.now place p level → Says graph.now result p level }
    ensures canonical { IsCanonical graph.now }
{
    let place = place as usize;
    if place < triples.len() {
        let _count = graph.vars();
        triples[place]
    } else {
        unknown(graph)
    }
}

/// The triple of a node.
fn node(graph: &Graph, table: &Table, node: Read) -> Three
    requires { IsTable graph.now table.now }
    ensures triple { IsTriple graph.now result }
    ensures says { (p : Point) (l : LevelsOf) → NodeSays graph.now table.now p l node → Says graph.now result p (node_level l node) }
    ensures canonical { IsCanonical graph.now }
{
    match node {
        Read::OfNet(net) => three_at(graph, table.nets.items(), net),
        Read::OfRegister(register) => three_at(graph, table.visible.items(), register),
    }
}

/// What a literal reads.
fn literal(graph: &Graph, table: &Table, literal: Literal) -> Value
    requires { IsTable graph.now table.now }
    ensures valid { IsValue graph.now result }
    ensures means { (p : Point) (l : LevelsOf) → NodeSays graph.now table.now p l literal.source → Means graph.now result p (value_of_literal l literal) }
    ensures canonical { IsCanonical graph.now }
{
    let three = node(graph, table, literal.source);
    if literal.high {
        Value {
            one: three.one,
            zero: three.zero,
        }
    } else {
        Value {
            one: three.zero,
            zero: three.one,
        }
    }
}

/// The three-valued AND.
pub(crate) fn both(graph: &mut Graph, a: Value, b: Value) -> Result<Value, NoNode>
    requires left { IsValue graph.old a }
    requires right { IsValue graph.old b }
    ensures keeps { Keeps graph.old graph.new }
    ensures canonical { IsCanonical graph.new }
    ensures made { IfOk result (IsMadeBy and_of graph.old graph.new a b) }
{
    let one = graph.and(a.one, b.one)?;
    let zero = graph.or(a.zero, b.zero)?;
    Ok(Value { one, zero })
}

/// The three-valued OR.
pub(crate) fn either(graph: &mut Graph, a: Value, b: Value) -> Result<Value, NoNode>
    requires left { IsValue graph.old a }
    requires right { IsValue graph.old b }
    ensures keeps { Keeps graph.old graph.new }
    ensures canonical { IsCanonical graph.new }
    ensures made { IfOk result (IsMadeBy or_of graph.old graph.new a b) }
{
    let one = graph.or(a.one, b.one)?;
    let zero = graph.and(a.zero, b.zero)?;
    Ok(Value { one, zero })
}

/// The value of a product.
fn product(graph: &mut Graph, table: &Table, literals: &[Literal]) -> Result<Value, NoNode>
    requires { IsTable graph.old table.now }
    ensures keeps { Keeps graph.old graph.new }
    ensures canonical { IsCanonical graph.new }
    ensures value { IfOk result (IsValueOf graph.old graph.new table.now (product_reads literals.now) (λ l. value_of_product l literals.now)) }
{
    let one = graph.constant(true);
    let zero = graph.constant(false);
    let mut value = Value { one, zero };
    for lit in literals {
        let x = literal(graph, table, *lit);
        value = both(graph, value, x)?;
    }
    Ok(value)
}

/// The value of a sum.
pub(crate) fn sum(
    graph: &mut Graph,
    table: &Table,
    terms: &[Items<Literal>],
) -> Result<Value, NoNode>
    requires { IsTable graph.old table.now }
    ensures keeps { Keeps graph.old graph.new }
    ensures canonical { IsCanonical graph.new }
    ensures value { IfOk result (IsValueOf graph.old graph.new table.now (sum_reads terms.now) (λ l. value_of_sum l terms.now)) }
{
    let one = graph.constant(false);
    let zero = graph.constant(true);
    let mut value = Value { one, zero };
    for term in terms {
        let x = product(graph, table, term.items())?;
        value = either(graph, value, x)?;
    }
    Ok(value)
}

/// The value of a row.
pub(crate) fn row(graph: &mut Graph, table: &Table, gate: &Gate) -> Result<Value, NoNode>
    requires { IsTable graph.old table.now }
    ensures keeps { Keeps graph.old graph.new }
    ensures canonical { IsCanonical graph.new }
    ensures value { IfOk result (IsValueOf graph.old graph.new table.now (row_reads gate.now) (λ l. value_of_row l gate.now)) }
{
    match gate {
        Gate::Never => {
            let one = graph.constant(false);
            let zero = graph.constant(true);
            Ok(Value { one, zero })
        }
        Gate::Product(literals) => product(graph, table, literals.items()),
    }
}

/// A sum as a triple: it is never Z.
fn sum_given(graph: &mut Graph, table: &Table, terms: &[Items<Literal>]) -> Result<Three, NoNode>
    requires { IsTable graph.old table.now }
    ensures keeps { Keeps graph.old graph.new }
    ensures canonical { IsCanonical graph.new }
    ensures triple { IfOk result (IsTripleOf graph.old graph.new table.now (sum_reads terms.now) (λ l. value_of_sum l terms.now)) }
{
    let value = sum(graph, table, terms)?;
    let float = graph.constant(false);
    Ok(Three {
        one: value.one,
        zero: value.zero,
        float,
    })
}

/// What a unit gives where it is enabled.
fn given(graph: &mut Graph, table: &Table, gives: &Gives) -> Result<Three, NoNode>
    requires { IsTable graph.old table.now }
    ensures keeps { Keeps graph.old graph.new }
    ensures canonical { IsCanonical graph.new }
    ensures triple { IfOk result (IsTripleOf graph.old graph.new table.now (gives_reads gives.now) (λ l. level_given l gives.now)) }
{
    match gives {
        Gives::Sum(terms) => sum_given(graph, table, terms.items()),
        Gives::Visible(register) => Ok(three_at(graph, table.visible.items(), *register)),
    }
}

/// NOT where it is low.
fn turned(graph: &Graph, low: bool, given: Three) -> Three
    requires { IsTriple graph.now given }
    ensures triple { IsTriple graph.now result }
    ensures says { (p : Point) (level : LevelOf) → Says graph.now given p level → Says graph.now result p (inverted_if low level) }
    ensures canonical { IsCanonical graph.now }
{
    let float = graph.constant(false);
    if low {
        Three {
            one: given.zero,
            zero: given.one,
            float,
        }
    } else {
        given
    }
}

/// The drive of a unit.
pub(crate) fn drive(graph: &mut Graph, table: &Table, driver: &Driver) -> Result<Three, NoNode>
    requires { IsTable graph.old table.now }
    ensures keeps { Keeps graph.old graph.new }
    ensures canonical { IsCanonical graph.new }
    ensures triple { IfOk result (IsTripleOf graph.old graph.new table.now (row_reads driver.now.enable ++ gives_reads driver.now.gives) (λ l. level_driven l driver.now)) }
{
    let enable = row(graph, table, &driver.enable)?;
    let given = given(graph, table, &driver.gives)?;
    let level = turned(graph, driver.low, given);
    behind(graph, enable, level)
}

/// A level behind an enable.
fn behind(graph: &mut Graph, enable: Value, given: Three) -> Result<Three, NoNode>
    requires enable { IsValue graph.old enable }
    requires given { IsTriple graph.old given }
    ensures keeps { Keeps graph.old graph.new }
    ensures canonical { IsCanonical graph.new }
    ensures gated { IfOk result (IsGated graph.old graph.new enable given) }
{
    let one = graph.and(enable.one, given.one)?;
    let zero = graph.and(enable.one, given.zero)?;
    let through = graph.and(enable.one, given.float)?;
    let float = graph.or(enable.zero, through)?;
    Ok(Three { one, zero, float })
}

/// One more driver on a net.
pub(crate) fn wired(graph: &mut Graph, so_far: Three, driver: Three) -> Result<Three, NoNode>
    requires so_far { IsTriple graph.old so_far }
    requires driver { IsTriple graph.old driver }
    ensures keeps { Keeps graph.old graph.new }
    ensures canonical { IsCanonical graph.new }
    ensures wired { IfOk result (IsWired graph.old graph.new so_far driver) }
{
    let may_one = graph.or(driver.one, driver.float)?;
    let may_zero = graph.or(driver.zero, driver.float)?;
    let one = graph.and(so_far.one, may_one)?;
    let zero = graph.and(so_far.zero, may_zero)?;
    let float = graph.and(so_far.float, driver.float)?;
    Ok(Three { one, zero, float })
}
