//! A `Ref` as a place and a mark in one word: twice the place, and one more where it is marked.
ghost use Rattle.std.specs.Prelude.{◌≡◌, false, IfOk};
ghost use Rattle.bdd.specs.Tree.{xor};
ghost use Rattle.bdd.specs.Diagram.{place, is_marked};

use crate::{NoNode, Ref};

/// The number of places that a `Ref` can name.
const PLACES: usize = 1 << 63;

impl Ref {
    /// The unmarked ref of a place, where a ref can name it.
    pub(crate) fn unmarked(index: usize) -> Result<Ref, NoNode>
        ensures { IfOk result (λ r. (place r ≡ index) × (is_marked r ≡ false)) }
    {
        if index < PLACES {
            Ok(Ref(index as u64 * 2))
        } else {
            Err(NoNode)
        }
    }

    pub(crate) fn index(self) -> usize
        ensures { result ≡ place self }
    {
        (self.0 / 2) as usize
    }

    pub(crate) fn has_mark(self) -> bool
        ensures { result ≡ is_marked self }
    {
        self.0 % 2 == 1
    }

    /// The negation where `mark` is set, and else the function itself.
    pub(crate) fn with_mark(self, mark: bool) -> Ref
        ensures place { place result ≡ place self }
        ensures mark { is_marked result ≡ xor mark (is_marked self) }
    {
        match (mark, self.has_mark()) {
            (false, _) => self,
            (true, false) => Ref(self.0 + 1),
            (true, true) => Ref(self.0 - 1),
        }
    }
}
