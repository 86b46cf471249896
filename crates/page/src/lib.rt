// The page form: type descriptors and catalogues, long pointers, a page's first fault, and a reader of its parts.
#![tactic(auto)]

mod catalogue;
mod cells;
mod descriptor;
mod form;
mod link;
mod reader;
mod studio;

pub use catalogue::{ClosedCatalogue, DeclaringCatalogue};
pub use cells::{cell, put_cell};
pub use descriptor::Descriptor;
pub use form::first_fault;
pub use link::{Position, to_link};
pub use reader::{Part, Reader};
pub use studio::studio_catalogue;
