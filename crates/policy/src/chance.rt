// Second chance: the frames in turn, but for those used since.
ghost use Rattle.std.specs.Prelude.{◌≡◌, false, replicate};

pub mod picks;

use crate::{MOST_FRAMES, RoundRobin};

// Goes round as RoundRobin does, and passes a touched frame once. A frame past the most is never touched.
#[derive(Clone, Copy, Debug, PartialEq, Eq)]
pub struct SecondChance {
    round: RoundRobin,
    touched: [bool; MOST_FRAMES],
}

impl SecondChance {
    // A policy with no frames, until it is opened.
    pub fn new() -> Self
        ensures frames { result.round.frames ≡ 0 }
        ensures next { result.round.next ≡ 0 }
        ensures touched { result.touched ≡ replicate 16 false }
    {
        SecondChance {
            round: RoundRobin::new(),
            touched: [false; MOST_FRAMES],
        }
    }
}
