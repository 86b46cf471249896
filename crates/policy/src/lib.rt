// Which frame a page service gives up when it needs room.
#![tactic(auto)]

ghost use Rattle.std.specs.Prelude.{◌≡◌, ℕ, Bool, List};
ghost use Rattle.policy.specs.Answers.{Answer};

mod chance;
mod round;
mod scan;

pub use chance::SecondChance;
pub use round::RoundRobin;

// How many frames a service has at most.
pub const MOST_FRAMES: usize = 16;

// Frames are numbered from 0. Nothing is refused.
pub trait Policy {
    // How many frames there are: all that a policy means.
    ghost frames: { Self → ℕ };

    // One answer: the policy, the occupied frames, the frame answered, the policy after.
    ghost picks: { Self → List Bool → ℕ → Self → Type 0 } = { λ _ _ _ _. Unit {0} };

    // One touch: the policy, the frame touched, the policy after.
    ghost touches: { Self → ℕ → Self → Type 0 } = { λ _ _ _. Unit {0} };

    // Told how many frames there are when a service opens; starts over.
    fn open(&mut self, count: usize)
        ensures given { frames self.new ≡ count };

    // Told each frame that a granted opening touches.
    fn touch(&mut self, frame: usize)
        ensures keeps { frames self.new ≡ frames self.old }
        ensures course { touches self.old frame self.new };

    // The occupied frame to give up, or the number of frames if none is occupied: this answer is fixed.
    fn victim(&mut self, occupied: &[bool]) -> usize
        ensures keeps { frames self.new ≡ frames self.old }
        ensures answer { Answer occupied.now (frames self.old) result }
        ensures picked { picks self.old occupied.now result self.new };
}
