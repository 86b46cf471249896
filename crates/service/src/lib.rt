// The service: pages in frames over a store, walked and read through sixteen cursors.
#![tactic(auto)]

mod plan;
mod service;

pub use plan::Plan;
pub use service::Service;
