// The pool of frames over a store: which pages are in frames, and how room is made for another.
#![tactic(auto)]

mod pool;

pub use pool::Pool;
