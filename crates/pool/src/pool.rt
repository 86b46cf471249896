ghost use Rattle.std.specs.Prelude.{◌≡◌, ℕ, ◌<◌, ◌≤◌, false, length, is_some, None, slice_index_or};
ghost use Rattle.page.specs.Types.{types};
ghost use Rattle.pool.specs.Meaning.{Fine};
ghost use Rattle.pool.specs.Needs.{needed, Covers};

mod look;
mod open;
mod room;
mod save;
mod start;
mod tell;

use address::AddressTable;
use frame::Frame;
use page::ClosedCatalogue;
use policy::{MOST_FRAMES, Policy};
use store::Store;

// A store, the frames that hold some of its pages, the slots of the pages that these need, and the policy that says
// which frame is given up. Frames are the first `count` of sixteen, in the pool's own value, since a pool has no heap.
#[derive(Drop)]
pub struct Pool<S: Store, V: Policy> {
    store: S,
    policy: V,
    catalogue: ClosedCatalogue,
    table: AddressTable,
    frames: [Option<Frame>; MOST_FRAMES],
    count: usize,
    // how many pages the store has
    pages: u64,
    ghost sized: { length frames ≡ 16 },
    ghost small: { (0 < count) × (count ≤ 16) },
    ghost spare: { (k : ℕ) → count ≤ k → is_some (slice_index_or frames k None) ≡ false },
    ghost covered: { Covers table.slot_of (needed frames) },
    ghost tied: { Fine (types catalogue) table.slot_of table.page_of (S.Store.pages store) frames pages (V.Policy.frames policy) count },
}
