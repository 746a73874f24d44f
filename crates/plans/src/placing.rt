use mig_base::{PinName, PlanChip};

/// A placed unit: its number and name, its new chip and its pin there.
#[derive(Clone, Copy)]
pub struct Placing {
    pub unit: u32,
    pub name: PinName,
    pub chip: PlanChip,
    pub pin: u8,
}
