// Runs of the search by a driver, and choosing the key by them.

#![tactic(auto)]

mod driver;
mod key;
mod scale;

pub use driver::Driver;
pub use key::{Choice, Root, choose};
