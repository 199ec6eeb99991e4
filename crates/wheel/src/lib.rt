// The wheel: a hierarchical timing wheel of six levels of 64 slots over the cell store.
#![tactic(auto)]

pub mod audit;
pub mod checked;
pub mod head;
pub mod in_place;
pub mod quick;
pub mod setup;
