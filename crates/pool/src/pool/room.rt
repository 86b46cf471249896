// Room for a page: victims leave one at a time until a frame is free and the slots suffice.
ghost use Rattle.std.specs.Prelude.{◌≡◌, ℕ, ◌<◌, ◌≤◌, true, List, map, is_some, IfSome, Some, None, slice_index_or, slice_set};
ghost use Rattle.pageset.specs.Sets.{holds, tally};
ghost use Rattle.page.specs.Types.{types};
ghost use Rattle.pool.specs.Needs.{needed, whole};
ghost use Rattle.pool.specs.Leaving.{Empty, Enough, Went, put_back};
ghost use Rattle.pool.specs.Pools.{Rest};

use crate::pool::Pool;
use address::AddressTable;
use frame::Frame;
use page::ClosedCatalogue;
use pageset::PageSet;
use policy::{MOST_FRAMES, Policy};
use std::array;
use store::Store;

// Writes a page back if it was changed. Takes what it needs of a pool apart, since saving walks over the frames meanwhile.
pub(super) fn write_back<S: Store>(
    store: &mut S,
    frame: &Frame,
    table: &AddressTable,
    catalogue: &ClosedCatalogue,
)
    ensures { S.Store.pages store.new ≡ put_back (types catalogue.now) table.now.page_of (Some frame.now) (S.Store.pages store.old) }
{
    if frame.changed {
        let bytes = frame.bytes(table, catalogue);
        let _ = (*store).write(frame.page, &bytes);
    }
}

impl<S: Store, V: Policy> Pool<S, V> {
    // The frames that hold a page.
    fn occupied(&self) -> [bool; MOST_FRAMES]
        ensures { result ≡ map is_some self.now.frames }
    {
        array::from_fn(|k| self.held(k).is_some())
    }

    // The pages of the set, and those that the frames need.
    pub(super) fn whole(&self, asked: &PageSet) -> PageSet
        ensures { (n : ℕ) → holds result.words n ≡ whole (holds asked.now.words) self.now.frames n }
    {
        let mut pages = *asked;
        for held in &self.frames {
            if let Some(frame) = held {
                pages = pages.union(&frame.needs);
            }
        }
        pages
    }

    // An empty frame, if there is one.
    fn vacant(&self) -> Option<usize>
        ensures found { IfSome result (λ k. (k < self.now.count) × Empty self.now.frames k) }
        ensures none { result ≡ None → (k : ℕ) → k < self.now.count → Empty self.now.frames k → ⊥ }
    {
        self.frames[..self.count]
            .iter()
            .position(|held| held.is_none())
    }

    // An empty frame, if there is one and room for all that is needed.
    fn ready(&self, asked: &PageSet) -> Option<usize>
        ensures found { IfSome result (λ k. (k < self.now.count) × Empty self.now.frames k) }
        ensures fits { IfSome result (λ _. Enough (holds asked.now.words) self.now.table.slots self.now.count self.now.frames) }
        ensures none { result ≡ None → Enough (holds asked.now.words) self.now.table.slots self.now.count self.now.frames → ⊥ }
    {
        if self.whole(asked).count() > u32::from(self.table.size()) {
            return None;
        }
        self.vacant()
    }

    // Gives up the frame that the policy picks, and answers it, if any is occupied.
    fn leave(&mut self) -> Option<usize>
        ensures left { IfSome result (λ v. (is_some (slice_index_or self.old.frames v None) ≡ true) × (V.Policy.picks self.old.policy (map is_some self.old.frames) v self.new.policy) × (self.new.frames ≡ slice_set self.old.frames v None) × (S.Store.pages self.new.store ≡ put_back (types self.old.catalogue) self.old.table.page_of (slice_index_or self.old.frames v None) (S.Store.pages self.old.store))) }
        ensures none { result ≡ None → (k : ℕ) → Empty self.old.frames k }
        ensures policy { V.Policy.frames self.new.policy ≡ V.Policy.frames self.old.policy }
        ensures rest { Rest self.old self.new }
    {
        let marks = self.occupied();
        let victim = self.policy.victim(&marks);
        let frame = self.held(victim)?;
        write_back(&mut self.store, &frame, &self.table, &self.catalogue);
        self.frames[victim] = None;
        Some(victim)
    }

    // Gives up frames, one at a time, until there is room. Answers an empty frame, if all that is asked for has slots.
    pub(super) fn make_room(&mut self, asked: &PageSet) -> Option<usize>
        ensures made { IfSome result (λ k. (k < self.old.count) × Empty self.new.frames k × Enough (holds asked.now.words) self.old.table.slots self.old.count self.new.frames) }
        ensures went { IfSome result (λ _. (vs : List ℕ) × Went V.Policy.picks S.Store.pages (types self.old.catalogue) self.old.table.page_of (holds asked.now.words) self.old.table.slots self.old.count self.old.frames self.old.policy self.old.store vs self.new.frames self.new.policy self.new.store) }
        ensures succeeds { tally (holds asked.now.words) 1024 ≤ self.old.table.slots → is_some result ≡ true }
        ensures policy { V.Policy.frames self.new.policy ≡ V.Policy.frames self.old.policy }
        ensures rest { Rest self.old self.new }
    {
        'leaving: loop {
            if let Some(free) = self.ready(asked) {
                return Some(free);
            }
            self.leave()?;
        }
    }
}
