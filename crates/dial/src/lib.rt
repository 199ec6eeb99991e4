// The dial: what happens to a wheel's lists as the clock turns.
#![tactic(auto)]

pub mod firing;
pub mod lists;
pub mod state;
pub mod turns;
