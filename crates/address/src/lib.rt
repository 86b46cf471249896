// The address table of a service: which slot belongs to which page.
#![tactic(auto)]

mod table;

pub use table::AddressTable;
