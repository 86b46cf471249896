// Pages in frames: cells in place of bytes, and addresses in place of long pointers.
#![tactic(auto)]

mod bytes;
mod frame;
mod laws;
mod links;
mod pages;
mod walk;

pub use bytes::{bytes_of, cells_of};
pub use frame::Frame;
pub use laws::{changes_stand, pages_stand, swizzling_stands};
pub use links::{swizzle, to_pointer, unswizzle};
pub use pages::{framed_pages, linked_pages};
pub use walk::starts_at;
