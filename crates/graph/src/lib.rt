// The graph of objects that a store's pages hold: its calls, their answers, and what holds over runs.
#![tactic(auto)]

mod calls;
mod laws;

pub use calls::{Answer, Call, Value};
pub use laws::{
    cells_law_stands, edits_law_stands, eighteen_law_stands, lawful_law_stands, refusals_law_stands,
};
pub use page::Position;
