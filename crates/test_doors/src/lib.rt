// The checked and the quick calls of both engines for programs in other languages, over plain numbers and lent slices: the tests on broken memory and the
// benchmark of the audits link them. A harness, so that its contracts are modest: what it is proved to do is to end, and to stay within the lent slices.
// What the calls do is promised where they stand.
#![tactic(auto)]

pub mod decided;
mod lent;
pub mod queue_door;
mod queue_told;
pub mod wheel_door;
mod wheel_told;
