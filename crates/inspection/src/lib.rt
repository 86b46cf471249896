// Inspection: whether a page is lawful, what it holds, and where its first fault stands.
#![tactic(auto)]

mod inspect;
mod survey;

pub use inspect::inspect_page;
pub use survey::{Survey, links_in, object_type, survey_page};
