ghost use Rattle.std.specs.Prelude.{◌≡◌};
ghost use Rattle.service.specs.Plans.{plan_answer, planned};

use crate::plan::Plan;
use fault::{Cause, Fault, Place};

// The layer of plan and catalogue.
const LAYER: u32 = 1;

impl Plan {
    pub fn new(addresses: u64, frames: u64) -> Result<Plan, Fault>
        ensures { planned result ≡ plan_answer addresses frames }
    {
        if !(1..=256).contains(&addresses) || !(1..=16).contains(&frames) {
            return Err(Fault::new(Cause::BadPlan, LAYER, Place::nowhere()));
        }
        Ok(Plan {
            addresses: addresses as u16,
            frames: frames as usize,
        })
    }
}
