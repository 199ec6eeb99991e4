// The part of the audit that every engine shares.
#![tactic(auto)]

pub mod audit;
pub mod cell;
pub mod differ;
pub mod stack;
pub mod sweep;
pub mod table;
