use bdd::Ref;
use mig_base::Items;

/// A level as three functions: where it is 1, where 0 and where Z. Elsewhere it is X.
#[derive(Clone, Copy)]
pub struct Three {
    pub one: Ref,
    pub zero: Ref,
    pub float: Ref,
}

/// A level as two functions, where it is 1 and where 0.
#[derive(Clone, Copy)]
pub(crate) struct Value {
    pub one: Ref,
    pub zero: Ref,
}

/// The triples of all nets and all visible Qs.
#[derive(Drop)]
pub struct Table {
    pub nets: Items<Three>,
    pub visible: Items<Three>,
}

/// The triples of all nets, of the drives of all units, of all visible Qs, and of what all registers take.
#[derive(Drop)]
pub struct Triples {
    pub nets: Items<Three>,
    pub drives: Items<Three>,
    pub visible: Items<Three>,
    pub next: Items<Three>,
}
