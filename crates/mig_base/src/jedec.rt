use crate::Items;

/// A field of a fuse text: the place of its identifier, and its bytes from the identifier on, without the asterisk.
#[derive(Clone, Drop)]
pub struct Field {
    pub at: usize,
    pub text: Items<u8>,
}

/// Why a fuse text was refused. Places count bytes of the file from 0.
#[derive(Clone, Copy, Debug, PartialEq, Eq)]
pub enum JedError {
    NoStx,
    NoEtx,
    BadTail,
    BadSum { said: u16, found: u16 },
    BadField { at: usize },
    FieldK { at: usize },
    CountTwice { at: usize },
    CountOver { found: u32 },
    DefaultTwice { at: usize },
    NoCount,
    Address { at: usize },
    FuseTwice { fuse: u32 },
    FuseUnset { fuse: u32 },
    BadFuseSum { said: u16, found: u16 },
    Memory,
}
