// The frames' pages are written to the store, and stay in their frames.
ghost use Rattle.std.specs.Prelude.{◌≡◌, None, slice_index_or};
ghost use Rattle.page.specs.Types.{types};
ghost use Rattle.pool.specs.Leaving.{put_back};
ghost use Rattle.pool.specs.Pools.{Rest, SavedTo};
ghost use Rattle.pool.specs.Saving.{Cleaned};

use crate::pool::Pool;
use crate::pool::room::write_back;
use policy::{MOST_FRAMES, Policy};
use store::Store;

impl<S: Store, V: Policy> Pool<S, V> {
    // Writes all changed pages back. The store then has what is stood for.
    pub fn save(&mut self)
        ensures saved { SavedTo self.old self.new }
        ensures frames { Cleaned self.old.frames self.new.frames }
        ensures policy { self.new.policy ≡ self.old.policy }
        ensures rest { Rest self.old self.new }
    {
        for held in self.frames.iter_mut() {
            if let Some(frame) = held {
                write_back(&mut self.store, frame, &self.table, &self.catalogue);
                frame.changed = false;
            }
        }
    }
}
