use crate::NewFile;
use answers::Exit;
use mig_base::Items;

/// What a command comes to: its answer, and what it saves and reports.
#[derive(Drop)]
pub struct Prepared {
    pub answer: Exit,
    pub saves: Items<NewFile>,
    pub report: Vec<u8>,
}
