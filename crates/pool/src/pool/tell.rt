// What a pool tells of itself and of its store.
ghost use Rattle.std.specs.Prelude.{◌≡◌, ◌&&◌, nat_le, nat_lt};
ghost use Rattle.page.specs.Descriptors.{found};
ghost use Rattle.page.specs.Types.{types};
ghost use Rattle.store.specs.Rules.{open_at};
ghost use Rattle.pool.specs.Looking.{owner_of};
ghost use Rattle.pool.specs.Pools.{Rest};

use crate::pool::Pool;
use page::Descriptor;
use policy::Policy;
use store::Store;

impl<S: Store, V: Policy> Pool<S, V> {
    // The page that a slot, counted from 0, belongs to.
    pub fn owner(&self, slot: u64) -> Option<u64>
        ensures { result ≡ owner_of self.now.table.page_of self.now.table.slots slot }
    {
        if slot >= u64::from(self.table.size()) {
            return None;
        }
        self.table.page(slot as u16 + 1).map(u64::from)
    }

    // Whether there is a page of that number.
    pub fn has_page(&self, n: u64) -> bool
        ensures { result ≡ (nat_lt 0 n && nat_le n self.now.pages) }
    {
        (1..=self.pages).contains(&n)
    }

    // The type of that number, if it is declared.
    pub fn descriptor(&self, number: u64) -> Option<Descriptor>
        ensures { result ≡ found (types self.now.catalogue) number }
    {
        self.catalogue.descriptor(number)
    }

    // Whether page n may be written.
    pub fn is_open(&mut self, n: u64) -> bool
        ensures value { result ≡ open_at (S.Store.pages self.old.store) n }
        ensures same { S.Store.pages self.new.store ≡ S.Store.pages self.old.store }
        ensures frames { self.new.frames ≡ self.old.frames }
        ensures policy { self.new.policy ≡ self.old.policy }
        ensures rest { Rest self.old self.new }
    {
        self.store.is_open(n)
    }

    // The store, as it is.
    pub fn into_store(self) -> S
    where
        V: Drop,
        ensures { result ≡ self.store }
    {
        let Pool {
            store,
            policy: _,
            catalogue: _,
            table: _,
            frames: _,
            count: _,
            pages: _,
        } = self;
        store
    }
}
