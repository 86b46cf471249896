// The program behind `balunsep`: its command line, its files and what it prints.
#![tactic(auto)]

mod catalogue;
mod command;
mod files;
mod inspect;
mod lines;
mod names;
mod numbers;
mod program;

pub use program::{Ending, start};
