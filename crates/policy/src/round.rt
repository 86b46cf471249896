// Round robin: the frames in turn.
ghost use Rattle.std.specs.Prelude.{◌≡◌, ◌<◌, ◌≤◌, IfSome};
ghost use Rattle.std.specs.Option.{unwrap_or};
ghost use Rattle.policy.specs.Turns.{goes_on};

pub mod picks;

// Takes the first occupied frame after its last victim, going round.
#[derive(Clone, Copy, Debug, PartialEq, Eq)]
pub struct RoundRobin {
    pub(crate) frames: usize,
    // The frame after its last victim.
    pub(crate) next: usize,
    ghost within: { next ≤ frames },
}

impl RoundRobin {
    // A policy with no frames, until it is opened.
    pub fn new() -> Self
        ensures frames { result.frames ≡ 0 }
        ensures next { result.next ≡ 0 }
    {
        RoundRobin { frames: 0, next: 0 }
    }

    // Goes on after an answer, and says it: the frame taken, or the number of frames if none was.
    pub(crate) fn answered(&mut self, taken: Option<usize>) -> usize
        requires { IfSome taken (λ k. k < self.old.frames) }
        ensures value { result ≡ unwrap_or taken self.old.frames }
        ensures frames { self.new.frames ≡ self.old.frames }
        ensures next { self.new.next ≡ goes_on self.old.frames self.old.next result }
    {
        if let Some(k) = taken {
            self.next = if k + 1 < self.frames { k + 1 } else { 0 };
        }
        taken.unwrap_or(self.frames)
    }
}
