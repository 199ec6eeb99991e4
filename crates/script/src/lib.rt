// Lines in, lines out: a script line read from bytes, and answer lines written into lent bytes.
#![tactic(auto)]

pub mod chunks;
pub mod console;
pub mod drive;
pub mod reading;
pub mod replies;
pub mod scan;
pub mod session;
pub mod writing;
