// The rules of the wheel, and their audit over lent arrays.
#![tactic(auto)]

pub mod audit;
pub mod order;
pub mod span;
pub mod walk;
