// What store, address table and frames stand for, and that their own moves do not change it.
#![tactic(auto)]

mod laws;

pub use laws::{courses_stand, laws_stand};
