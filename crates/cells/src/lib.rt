// Cells in lent memory: eight words to a cell.
#![tactic(auto)]

pub mod refusal;
pub mod stack;
pub mod store;
pub mod words;
