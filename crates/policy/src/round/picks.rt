// Round robin as a policy.
ghost use Rattle.std.specs.Prelude.{◌≡◌, ◌-◌};
ghost use Rattle.policy.specs.Answers.{Answer};
ghost use Rattle.policy.specs.Turns.{following};
ghost use Rattle.policy.specs.Picks.{RoundPicks};
ghost use Rattle.policy.specs.Runs.{Fair};

use crate::Policy;
use crate::round::RoundRobin;

impl RoundRobin {
    // Within how many answers it takes a frame that stays occupied.
    pub fn longest_wait(&self) -> usize
        ensures value { result ≡ self.now.frames }
        ensures fair { Fair self.now result }
    {
        self.frames
    }
}

impl Policy for RoundRobin {
    ghost frames = { λ p. p.frames };

    ghost picks = { RoundPicks };

    ghost touches = { λ p _ q. q ≡ p };

    // It starts as if the last frame had been its last victim.
    fn open(&mut self, count: usize)
        ensures given { self.new.frames ≡ count }
        ensures next { self.new.next ≡ 0 }
        ensures starts { self.new.next ≡ following count (count - 1) }
    {
        *self = RoundRobin {
            frames: count,
            next: 0,
        };
    }

    fn touch(&mut self, frame: usize)
        ensures keeps { self.new.frames ≡ self.old.frames }
        ensures same { self.new ≡ self.old }
        ensures course { self.new ≡ self.old }
    {
        let _ = frame;
    }

    fn victim(&mut self, occupied: &[bool]) -> usize
        ensures keeps { self.new.frames ≡ self.old.frames }
        ensures answer { Answer occupied.now self.old.frames result }
        ensures picked { RoundPicks self.old occupied.now result self.new }
    {
        let taken = self.turn(occupied);
        self.answered(taken)
    }
}
