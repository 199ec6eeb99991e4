// Lists of cells in lent words, linked both ways; the ends of 384 slots in arrays, and a mark for each slot whose list is not empty.
#![tactic(auto)]

pub mod ring;
pub mod slots;
