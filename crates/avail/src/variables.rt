ghost use Rattle.std.specs.Prelude.{◌≡◌};
ghost use Rattle.mig_base.specs.Bools.{same_bool as bool_same};
ghost use Rattle.mig_base.specs.Structure.{same_read as read_same, variable_of as variable_net};

use mig_base::{Circuit, Literal, Read};
use structure::variable_literal;

/// Whether two literals or levels have one sign.
pub fn same_bool(a: bool, b: bool) -> bool
    ensures { result ≡ bool_same a b }
{
    a == b
}

/// Whether two variables are one.
pub fn same_read(a: Read, b: Read) -> bool
    ensures { result ≡ read_same a b }
{
    match (a, b) {
        (Read::OfNet(n), Read::OfNet(m)) => n == m,
        (Read::OfRegister(k), Read::OfRegister(j)) => k == j,
        _ => false,
    }
}

/// The variable of a net.
pub(crate) fn variable_of(circuit: &Circuit, net: u32) -> Read
    ensures { result ≡ variable_net circuit.now net }
{
    let level = Literal {
        source: Read::OfNet(net),
        high: true,
    };
    variable_literal(circuit, level).source
}
