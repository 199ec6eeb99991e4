// The ready queue: a d-ary heap with handles over the cell store.
#![tactic(auto)]

pub mod audit;
pub mod checked;
pub mod head;
pub mod quick;
pub mod setup;
