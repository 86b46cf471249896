// Scans of frames, from a low one up to a high one.
ghost use Rattle.std.specs.Prelude.{◌≡◌, ℕ, ◌-◌, ◌<◌, ◌≤◌, true, false, None, List, ◌++◌, IfSome, slice_index_or, slice_set};
ghost use Rattle.std.specs.Option.{unwrap_or};
ghost use Rattle.policy.specs.Answers.{Answer};
ghost use Rattle.policy.specs.Turns.{span, walk, came, round_taken, chance_taken, chance_left};

use crate::{MOST_FRAMES, RoundRobin};

// Whether a frame is marked; one past the slice is not.
fn has(marks: &[bool], frame: usize) -> bool
    ensures { result ≡ slice_index_or marks.now frame false }
{
    marks.get(frame).copied().unwrap_or(false)
}

// Marks a frame or clears its mark; one past the most stays as it is, without one.
pub(crate) fn put(marks: &mut [bool; MOST_FRAMES], frame: usize, value: bool)
    ensures { marks.new ≡ slice_set marks.old frame value }
{
    if frame < MOST_FRAMES {
        marks[frame] = value;
    }
}

// The first occupied frame from low on that was not touched. The occupied frames that it passes are touched no more, so
// this is a loop.
fn pass(
    touched: &mut [bool; MOST_FRAMES],
    occupied: &[bool],
    low: usize,
    high: usize,
) -> Option<usize>
    requires { low ≤ high }
    ensures found { IfSome result (λ k. (k < high) × (slice_index_or occupied.now k false ≡ true)) }
    ensures taken { IfSome result (λ k. (none : ℕ) (rest : List ℕ) → walk occupied.now none (span low (high - low) ++ rest) touched.old ≡ came k touched.new) }
    ensures passed { result ≡ None → (none : ℕ) (rest : List ℕ) → walk occupied.now none (span low (high - low) ++ rest) touched.old ≡ walk occupied.now none rest touched.new }
{
    for k in low..high {
        if !has(occupied, k) {
            continue;
        }
        if !has(touched, k) {
            return Some(k);
        }
        put(touched, k, false);
    }
    None
}

impl RoundRobin {
    // The first occupied frame from next on, going round.
    pub(crate) fn turn(&self, occupied: &[bool]) -> Option<usize>
        ensures below { IfSome result (λ k. k < self.now.frames) }
        ensures answer { Answer occupied.now self.now.frames (unwrap_or result self.now.frames) }
        ensures exact { unwrap_or result self.now.frames ≡ round_taken occupied.now self.now.frames self.now.next }
    {
        (self.next..self.frames)
            .chain(0..self.next)
            .find(|&k| has(occupied, k))
    }

    // The first occupied frame from next on, going round, that was not touched, or else the first occupied one.
    pub(crate) fn second_turn(
        &self,
        touched: &mut [bool; MOST_FRAMES],
        occupied: &[bool],
    ) -> Option<usize>
        ensures below { IfSome result (λ k. k < self.now.frames) }
        ensures answer { Answer occupied.now self.now.frames (unwrap_or result self.now.frames) }
        ensures exact { unwrap_or result self.now.frames ≡ chance_taken occupied.now touched.old self.now.frames self.now.next }
        ensures left { touched.new ≡ chance_left occupied.now touched.old self.now.frames self.now.next }
    {
        // Tried as an `or_else`: it does not say what the touches are where its closure is not called, so `left` stays open.
        if let Some(later) = pass(touched, occupied, self.next, self.frames) {
            return Some(later);
        }
        pass(touched, occupied, 0, self.next).or_else(|| self.turn(occupied))
    }
}
