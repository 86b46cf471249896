// Second chance as a policy.
ghost use Rattle.std.specs.Prelude.{◌≡◌, ◌-◌, false, replicate};
ghost use Rattle.policy.specs.Answers.{Answer};
ghost use Rattle.policy.specs.Turns.{following, marked};
ghost use Rattle.policy.specs.Picks.{ChancePicks, ChanceTouches};

use crate::chance::SecondChance;
use crate::scan::put;
use crate::{MOST_FRAMES, Policy};

impl Policy for SecondChance {
    ghost frames = { λ p. p.round.frames };

    ghost picks = { ChancePicks };

    ghost touches = { ChanceTouches };

    // It starts as if the last frame had been its last victim, with no frame touched.
    fn open(&mut self, count: usize)
        ensures given { self.new.round.frames ≡ count }
        ensures next { self.new.round.next ≡ 0 }
        ensures starts { self.new.round.next ≡ following count (count - 1) }
        ensures touched { self.new.touched ≡ replicate 16 false }
    {
        self.round.open(count);
        self.touched = [false; MOST_FRAMES];
    }

    fn touch(&mut self, frame: usize)
        ensures keeps { self.new.round.frames ≡ self.old.round.frames }
        ensures next { self.new.round.next ≡ self.old.round.next }
        ensures touched { self.new.touched ≡ marked self.old.touched self.old.round.frames frame }
        ensures course { ChanceTouches self.old frame self.new }
    {
        if frame < self.round.frames {
            put(&mut self.touched, frame, true);
        }
    }

    fn victim(&mut self, occupied: &[bool]) -> usize
        ensures keeps { self.new.round.frames ≡ self.old.round.frames }
        ensures answer { Answer occupied.now self.old.round.frames result }
        ensures picked { ChancePicks self.old occupied.now result self.new }
    {
        let taken = self.round.second_turn(&mut self.touched, occupied);
        self.round.answered(taken)
    }
}
