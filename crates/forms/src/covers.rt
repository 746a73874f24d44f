ghost use Rattle.std.specs.Prelude.{◌≡◌, ℕ, List, [], ◌++◌, length, map, IfOk, OnOk};
ghost use Rattle.std.specs.List.{filter_map, cons_option, flat_map};
ghost use Rattle.std.specs.Option.{option_map};
ghost use Rattle.bdd.specs.Diagram.{function_of, Keeps};
ghost use Rattle.rails.specs.Variables.{all_rails, IsFit};
ghost use Rattle.rails.specs.Points.{Is, IsProper};
ghost use Rattle.board.specs.Variables.{IsVariable};
ghost use Rattle.joiner.specs.Joined.{Inverted};
ghost use Rattle.plans.specs.Forms.{IsCoverOf, IsCovered, over_board as literal_over};
ghost use Rattle.forms.specs.Cones.{AreVariables, IsNarrow, covered_function, literals_of, literals_at, chosen as chosen_of, literal_in, products_in};

use crate::old::Products;
use bdd::Ref;
use board::Board;
use cover::cover;
use joiner::JoinedPart;
use mig_base::{Items, Literal, MOST_PRIMES, NoMemory, Var, VarLit};
use primes::{PrimeError, Term};
use rails::Rails;
use std::alloc::Global;

/// The literals that a Boolean of a function stands for, plain and negated.
#[derive(Clone, Copy)]
pub(crate) struct Literals {
    plain: Literal,
    negated: Literal,
}

/// The cover of a joined part, or of the inverted part, as products over variables. None where it has too many primes. Fails for
/// want of memory alone.
pub(crate) fn cover_of(
    alloc: Global,
    board: &Board,
    part: &mut JoinedPart,
    inverted: bool,
) -> Result<Option<Products>, NoMemory>
    requires { (absorbed : List ℕ) × (sum : Inverted) × IsNarrow board.now absorbed sum part.old }
    ensures narrow { (absorbed : List ℕ) (sum : Inverted) → IsNarrow board.now absorbed sum part.old → IsNarrow board.now absorbed sum part.new }
    ensures covered { IfOk result (λ products. (absorbed : List ℕ) (sum : Inverted) → IsNarrow board.now absorbed sum part.old → IsCovered board.now absorbed sum inverted products) }
{
    let Some(terms) = terms_of(alloc, part, inverted)? else {
        return Ok(None);
    };
    let table = table_of(alloc, board, part.rails.vars())?;
    let products = products_of(alloc, table.as_slice(), terms.as_slice())?;
    Ok(Some(products))
}

/// The terms of the cover. None where there are too many primes.
fn terms_of(
    alloc: Global,
    part: &mut JoinedPart,
    inverted: bool,
) -> Result<Option<Vec<Term>>, NoMemory>
    requires fit { IsFit part.old.rails }
    requires proper { IsProper (all_rails part.old.rails.vars) part.old.rails.graph part.old.f }
    ensures vars { part.new.rails.vars ≡ part.old.rails.vars }
    ensures same { part.new.f ≡ part.old.f }
    ensures keeps { Keeps part.old.rails.graph part.new.rails.graph }
    ensures cover { IfOk result (λ terms. IsCoverOf (covered_function inverted part.old.rails.vars (function_of part.old.rails.graph part.old.f)) (option_map (λ ts. ts.items) terms)) }
{
    let f = function_covered(&mut part.rails, part.f, inverted)?;
    match cover(alloc, part.rails.graph(), f, MOST_PRIMES) {
        Ok(terms) => Ok(Some(terms)),
        Err(PrimeError::Over { .. }) => Ok(None),
        Err(PrimeError::Memory) => Err(NoMemory),
    }
}

/// A function, or that of the inverted part.
fn function_covered(rails: &mut Rails, f: Ref, inverted: bool) -> Result<Ref, NoMemory>
    requires fit { IsFit rails.old }
    requires proper { IsProper (all_rails rails.old.vars) rails.old.graph f }
    ensures vars { rails.new.vars ≡ rails.old.vars }
    ensures keeps { Keeps rails.old.graph rails.new.graph }
    ensures covered { IfOk result (Is rails.new.graph (covered_function inverted rails.old.vars (function_of rails.old.graph f))) }
{
    if inverted {
        return rails.invert(f);
    }
    Ok(f)
}

/// The literals of the Booleans of these variables, by place.
fn table_of(alloc: Global, board: &Board, vars: &[(Var, bool)]) -> Result<Vec<Literals>, NoMemory>
    requires { AreVariables board.now vars.now }
    ensures { IfOk result (λ table. table.items ≡ map (literals_of board.now) (all_rails vars.now)) }
{
    let mut table = Vec::new(alloc);
    for (var, pure) in vars {
        push_literals(&mut table, board, *var, *pure)?;
    }
    Ok(table)
}

/// Adds those of a variable's Booleans: one of a pure variable, and else one for its true and one for its complement literal.
fn push_literals(
    table: &mut Vec<Literals>,
    board: &Board,
    var: Var,
    pure: bool,
) -> Result<(), NoMemory>
    requires { IsVariable board.now var }
    ensures { OnOk result (table.new.items ≡ table.old.items ++ literals_at board.now (var, pure)) }
{
    let plain = over_board(board, VarLit { var, high: true });
    let negated = over_board(board, VarLit { var, high: false });
    if pure {
        table.push(Literals { plain, negated })?;
        return Ok(());
    }
    table.push(Literals {
        plain,
        negated: plain,
    })?;
    table.push(Literals {
        plain: negated,
        negated,
    })?;
    Ok(())
}

/// A literal over variables as one of the board's equations.
fn over_board(board: &Board, literal: VarLit) -> Literal
    requires { IsVariable board.now literal.var }
    ensures { result ≡ literal_over board.now literal }
{
    Literal {
        source: board.read(literal.var),
        high: literal.high,
    }
}

/// The products of these terms.
fn products_of(alloc: Global, table: &[Literals], terms: &[Term]) -> Result<Products, NoMemory>
    ensures { IfOk result (λ products. products ≡ products_in table.now terms.now) }
{
    let mut products = Vec::with_capacity(alloc, terms.len())?;
    for term in terms {
        products.push(product_of(alloc, table, term.items())?)?;
    }
    Ok(Items::new(products))
}

fn product_of(
    alloc: Global,
    table: &[Literals],
    term: &[(u32, bool)],
) -> Result<Items<Literal>, NoMemory>
    ensures { IfOk result (λ product. product ≡ filter_map (literal_in table.now) term.now) }
{
    let mut product = Vec::with_capacity(alloc, term.len())?;
    for (place, plain) in term {
        push_literal(&mut product, literal_at(table, *place, *plain))?;
    }
    Ok(Items::new(product))
}

fn push_literal(product: &mut Vec<Literal>, literal: Option<Literal>) -> Result<(), NoMemory>
    ensures { OnOk result (product.new.items ≡ product.old.items ++ cons_option literal []) }
{
    if let Some(literal) = literal {
        product.push(literal)?;
    }
    Ok(())
}

/// The literal of a place, if there is such a place.
fn literal_at(table: &[Literals], place: u32, plain: bool) -> Option<Literal>
    ensures { result ≡ literal_in table.now (place, plain) }
{
    let literals = table.get(place as usize)?;
    Some(chosen(*literals, plain))
}

fn chosen(literals: Literals, plain: bool) -> Literal
    ensures { result ≡ chosen_of plain literals }
{
    if plain {
        literals.plain
    } else {
        literals.negated
    }
}
