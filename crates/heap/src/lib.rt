// The d-ary heap in lent words.
#![tactic(auto)]

pub mod seats;
