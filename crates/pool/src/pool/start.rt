// A pool begins with all frames empty and all slots free.
ghost use Rattle.std.specs.Prelude.{◌≡◌, min, max, replicate, None};
ghost use Rattle.pool.specs.Pools.{stood_for};

use crate::pool::Pool;
use address::AddressTable;
use page::ClosedCatalogue;
use policy::{MOST_FRAMES, Policy};
use store::Store;

impl<S: Store, V: Policy> Pool<S, V> {
    // A pool over a store, of that many slots, at most 256, and that many frames, 1 to 16.
    pub fn new(
        mut store: S,
        mut policy: V,
        catalogue: ClosedCatalogue,
        addresses: u16,
        frames: usize,
    ) -> Self
        ensures stands { stood_for result ≡ S.Store.pages store }
        ensures catalogue { result.catalogue ≡ catalogue }
        ensures slots { result.table.slots ≡ min addresses 256 }
        ensures free { result.table.slot_of ≡ replicate 1025 0 }
        ensures empty { result.frames ≡ replicate 16 None }
        ensures count { result.count ≡ max (min frames 16) 1 }
    {
        let count = frames.clamp(1, MOST_FRAMES);
        policy.open(count);
        let pages = store.count();
        Pool {
            store,
            policy,
            catalogue,
            table: AddressTable::new(addresses),
            frames: [None; MOST_FRAMES],
            count,
            pages,
        }
    }
}
