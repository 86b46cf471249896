// The checks layer: a store that keeps a check of each page, and reads no page that differs from its check.
#![tactic(auto)]

ghost use Rattle.std.specs.Prelude.{◌≡◌};

mod calls;
mod layer;
mod seal;
mod sums;

use store::Store;

// The layer that its faults name. A proof of a generic impl can't read LAYER.
const CHECKS: u32 = 8;

// A store over the pages of another, of which the last keep the checks of the others.
#[derive(Drop)]
pub struct Checks<S: Store> {
    lower: S,
}

impl<S: Store> Checks<S> {
    pub fn new(lower: S) -> Checks<S>
        ensures { result.lower ≡ lower }
    {
        Checks { lower }
    }

    // The store below.
    pub fn lower(&self) -> &S
        ensures { result.now ≡ self.now.lower }
    {
        &self.lower
    }
}
