ghost use Rattle.std.specs.Prelude.{ℕ, ◌≡◌, ◌⊎◌, true};
ghost use Rattle.mig_base.specs.Among.{Among};
ghost use Rattle.reader_lists.specs.declared.lists.Reader.{Reader as ReaderOf};
ghost use Rattle.reader_lists.specs.declared.lists.Reader.TheVariants.{ByNet as OfNet};
ghost use Rattle.reader_lists.specs.Marked.{marked_in};
ghost use Rattle.settle.specs.Following.{given_by as given_from, given_at as given_to};

use crate::values::{level_at, same_level};
use mig_base::{Circuit, Level, NetKind};
use reader_lists::{Marks, Reader};

/// The level that a net of this kind is handed, and X where it is handed none.
fn given_by(inputs: &[Level], kind: NetKind) -> Level
    ensures { result ≡ given_from inputs.now kind }
{
    match kind {
        NetKind::Handed(place) | NetKind::Shared(place) => level_at(inputs, place),
        NetKind::Ground | NetKind::Power | NetKind::Inner => Level::X,
    }
}

/// The level that a net is handed, and X where it is handed none.
fn given_at(circuit: &Circuit, inputs: &[Level], net: u32) -> Level
    ensures { result ≡ given_to circuit.now inputs.now net }
{
    let nets = circuit.nets.items();
    let net = net as usize;
    if net < nets.len() {
        given_by(inputs, nets[net].kind)
    } else {
        Level::X
    }
}

/// Marks a net where it is handed another level than before.
fn mark_input(circuit: &Circuit, before: &[Level], now: &[Level], net: u32, marks: &mut Marks)
    ensures mark { (given_to circuit.now before.now net ≡ given_to circuit.now now.now net) ⊎ (marked_in marks.new (OfNet net) ≡ true) }
    ensures keeps { (r : ReaderOf) → marked_in marks.old r ≡ true → marked_in marks.new r ≡ true }
{
    let was = given_at(circuit, before, net);
    let is = given_at(circuit, now, net);
    if !same_level(was, is) {
        marks.mark(Reader::ByNet(net));
    }
}

/// Marks those of these nets that are handed another level than before.
pub(crate) fn mark_inputs(
    circuit: &Circuit,
    nets: &[u32],
    before: &[Level],
    now: &[Level],
    marks: &mut Marks,
)
    ensures marked { (n : ℕ) → Among n nets.now → (given_to circuit.now before.now n ≡ given_to circuit.now now.now n) ⊎ (marked_in marks.new (OfNet n) ≡ true) }
    ensures keeps { (r : ReaderOf) → marked_in marks.old r ≡ true → marked_in marks.new r ≡ true }
{
    for net in nets {
        mark_input(circuit, before, now, *net, marks);
    }
}
