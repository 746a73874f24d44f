//! Refs for both literals of joined nets.
ghost use Rattle.std.specs.Prelude.{◌≡◌, IfOk, replicate, None};
ghost use Rattle.joiner.specs.Pairs.{literal_by, pair_named, is_listed as is_listed_in, is_known as is_known_in, lits_known, terms_known};

use bdd::Ref;
use mig_base::{NoMemory, Var, VarLit, VarProduct};
use std::alloc::Global;

/// What the true and what the complement literal of a net read.
#[derive(Clone, Copy)]
pub(crate) struct Pair {
    pub(crate) level: Ref,
    pub(crate) inverse: Ref,
}

impl Pair {
    /// The ref of the true or of the complement literal.
    pub(crate) fn literal(self, high: bool) -> Ref
        ensures { result ≡ literal_by high self }
    {
        if high { self.level } else { self.inverse }
    }
}

/// No pairs, for so many nets.
pub(crate) fn no_pairs(alloc: Global, nets: usize) -> Result<Vec<Option<Pair>>, NoMemory>
    ensures { IfOk result (λ pairs. pairs.items ≡ replicate nets None) }
{
    let mut pairs = Vec::with_capacity(alloc, nets)?;
    for _ in 0..nets {
        pairs.push(None)?;
    }
    Ok(pairs)
}

/// The pair of a variable, if it is a joined net.
pub(crate) fn pair_of(pairs: &[Option<Pair>], variable: Var) -> Option<Pair>
    ensures { result ≡ pair_named pairs.now variable }
{
    let Var::Net(net) = variable else {
        return None;
    };
    let net = net as usize;
    if net < pairs.len() { pairs[net] } else { None }
}

/// Whether a variable is listed.
fn is_listed(vars: &[(Var, bool)], variable: Var) -> bool
    ensures { result ≡ is_listed_in vars.now variable }
{
    vars.iter().any(|entry| entry.0 == variable)
}

/// Whether a variable is a joined net, or listed.
fn is_known(vars: &[(Var, bool)], pairs: &[Option<Pair>], variable: Var) -> bool
    ensures { result ≡ is_known_in vars.now pairs.now variable }
{
    pair_of(pairs, variable).is_some() || is_listed(vars, variable)
}

/// Whether all literals of a product are of known variables.
fn is_known_product(vars: &[(Var, bool)], pairs: &[Option<Pair>], lits: &[VarLit]) -> bool
    ensures { result ≡ lits_known vars.now pairs.now lits.now }
{
    lits.iter().all(|lit| is_known(vars, pairs, lit.var))
}

/// Whether all literals of these products are of known variables.
pub(crate) fn are_known(vars: &[(Var, bool)], pairs: &[Option<Pair>], terms: &[VarProduct]) -> bool
    ensures { result ≡ terms_known vars.now pairs.now terms.now }
{
    terms
        .iter()
        .all(|term| is_known_product(vars, pairs, term.lits.items()))
}
