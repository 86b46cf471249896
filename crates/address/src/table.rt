// Slots and pages, one to one. Inside the table slots and pages are counted from 1, and 0 is none.
ghost use Rattle.std.specs.Prelude.{◌≡◌, ℕ, ◌+◌, ◌<◌, ◌≤◌, min, true, length, replicate, position, MatchOption, slice_index, slice_index_or, slice_set};
ghost use Rattle.pageset.specs.Sets.{holds, tally};
ghost use Rattle.address.specs.Pairing.{Agree, Within, Counted, Only, All, entry, free, owned};
ghost use Rattle.address.specs.Listing.{Listed};

use pageset::PageSet;

// The page of each slot and the slot of each page: two arrays of fixed size, one to one, as the table is written whole.
// `owners` is the set of the pages that have slots, so that a change costs by what changes.
#[derive(Clone, Copy, Debug, PartialEq, Eq)]
pub struct AddressTable {
    page_of: [u16; 257],
    slot_of: [u16; 1025],
    slots: u16,
    owners: PageSet,
    ghost agree: { Agree page_of slot_of },
    ghost within: { Within page_of slot_of slots },
    ghost counted: { Counted page_of slot_of (owned page_of) },
    ghost sized: { (length page_of ≡ 257) × (length slot_of ≡ 1025) },
    ghost listed: { Listed (holds owners.words) slot_of },
}

// What a page or a slot has in its list, if anything.
fn entry(entries: &[u16], number: u16) -> Option<u16>
    ensures { result ≡ entry (slice_index entries.now number) }
{
    entries
        .get(number as usize)
        .copied()
        .filter(|entry| *entry > 0)
}

// The first entry that is free.
fn first_free(entries: &[u16]) -> Option<usize>
    ensures { result ≡ position free entries.now }
{
    entries.iter().position(|entry| *entry == 0)
}

impl AddressTable {
    // A table of that many slots, at most 256, all free.
    pub fn new(slots: u16) -> AddressTable
        ensures free { result.slot_of ≡ replicate 1025 0 }
        ensures slots { result.slots ≡ min slots 256 }
    {
        AddressTable {
            page_of: [0; 257],
            slot_of: [0; 1025],
            slots: slots.min(256),
            owners: PageSet::new(),
        }
    }

    // The slot of a page.
    pub fn slot(&self, page: u16) -> Option<u16>
        ensures { result ≡ entry (slice_index_or self.now.slot_of page 0) }
    {
        entry(&self.slot_of, page)
    }

    // The page of a slot.
    pub fn page(&self, slot: u16) -> Option<u16>
        ensures { result ≡ entry (slice_index_or self.now.page_of slot 0) }
    {
        entry(&self.page_of, slot)
    }

    // How many slots there are.
    pub fn size(&self) -> u16
        ensures { result ≡ self.now.slots }
    {
        self.slots
    }

    // Takes its slot away from a page that has one.
    fn free(&mut self, page: u16)
        requires { 0 < slice_index self.old.slot_of page }
        ensures slots { self.new.slots ≡ self.old.slots }
        ensures slot_of { self.new.slot_of ≡ slice_set self.old.slot_of page 0 }
    {
        let slot = self.slot_of[page as usize];
        self.page_of[slot as usize] = 0;
        self.slot_of[page as usize] = 0;
        self.owners.remove(page);
    }

    // Gives a free slot to a page that has none.
    fn give(&mut self, page: u16, slot: u16)
        requires page { (0 < page) × (page ≤ 1024) × (slice_index self.old.slot_of page ≡ 0) }
        requires slot { (0 < slot) × (slot ≤ self.old.slots) × (slice_index self.old.page_of slot ≡ 0) }
        ensures slots { self.new.slots ≡ self.old.slots }
        ensures slot_of { self.new.slot_of ≡ slice_set self.old.slot_of page slot }
        ensures page_of { self.new.page_of ≡ slice_set self.old.page_of slot page }
    {
        self.page_of[slot as usize] = page;
        self.slot_of[page as usize] = slot;
        self.owners.add(page);
    }

    // Takes the slot away from each page that is not wanted.
    fn release(&mut self, wanted: &PageSet)
        ensures slots { self.new.slots ≡ self.old.slots }
        ensures kept { (n : ℕ) → holds wanted.now.words n ≡ true → slice_index self.new.slot_of n ≡ slice_index self.old.slot_of n }
        ensures only { Only (holds wanted.now.words) self.new.slot_of }
    {
        let out = self.owners.minus(wanted);
        let mut last = 0;
        while let Some(page) = out.after(last) {
            self.free(page);
            last = page;
        }
    }

    // The first slot from there on that has no page.
    fn vacant(&self, from: u16) -> Option<u16>
        requires { from ≤ self.now.slots + 1 }
        ensures { MatchOption result ((k : ℕ) → from ≤ k → k ≤ self.now.slots → 0 < slice_index self.now.page_of k) (λ s. (from ≤ s) × (s ≤ self.now.slots) × (slice_index self.now.page_of s ≡ 0) × ((k : ℕ) → from ≤ k → k < s → 0 < slice_index self.now.page_of k)) }
    {
        let more = first_free(&self.page_of[from as usize..self.slots as usize + 1])?;
        Some(from + more as u16)
    }

    // Gives free slots to the wanted pages that have none, while there are some.
    fn award(&mut self, wanted: &PageSet)
        requires only { Only (holds wanted.now.words) self.old.slot_of }
        ensures slots { self.new.slots ≡ self.old.slots }
        ensures kept { (n : ℕ) → 0 < slice_index self.old.slot_of n → slice_index self.new.slot_of n ≡ slice_index self.old.slot_of n }
        ensures only { Only (holds wanted.now.words) self.new.slot_of }
        ensures all { tally (holds wanted.now.words) 1024 ≤ self.old.slots → All (holds wanted.now.words) self.new.slot_of 1025 }
    {
        let come = wanted.minus(&self.owners);
        let mut last = 0;
        let mut next = 1;
        while let Some(page) = come.after(last) {
            let Some(slot) = self.vacant(next) else {
                return;
            };
            self.give(page, slot);
            last = page;
            next = slot;
        }
    }

    // Frees the slot of each page that is not wanted, and then sees that each wanted page has one. A wanted page
    // keeps the slot that it has.
    pub fn provide(self, wanted: &PageSet) -> AddressTable
        ensures slots { result.slots ≡ self.slots }
        ensures kept { (n : ℕ) → holds wanted.now.words n ≡ true → 0 < slice_index_or self.slot_of n 0 → slice_index_or result.slot_of n 0 ≡ slice_index_or self.slot_of n 0 }
        ensures only { Only (holds wanted.now.words) result.slot_of }
        ensures all { tally (holds wanted.now.words) 1024 ≤ self.slots → All (holds wanted.now.words) result.slot_of 1025 }
    {
        let mut table = self;
        table.release(wanted);
        table.award(wanted);
        table
    }
}
