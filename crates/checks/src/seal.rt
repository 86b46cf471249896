// Sets the checks of the pages.
ghost use Rattle.std.specs.Prelude.{◌≡◌, ◌^◌, ◌<◌, true, OnSome};
ghost use Rattle.store.specs.Rules.{read_buffer};
ghost use Rattle.checks.specs.Layer.{check, check_page, checked};
ghost use Rattle.checks.specs.Calls.{blank, in_layer, Still};
ghost use Rattle.checks.specs.Seals.{stale_answer, renewed_bytes, seal_answer, seal_pages, sealed, stale_count, Sealed, sealed_layer};

use crate::Checks;
use crate::sums::{agrees, check_cell, check_page, checked_count, weigh};
use page::put_cell;
use store::{PAGE_BYTES, Store};

impl<S: Store> Checks<S> {
    // The bytes of page `at` below with the check of page n, if it can be set there and is another.
    // The two numbers stand apart: `at` follows from n and the pages below, so a type for both would hold no more.
    fn renewed(&mut self, n: u64, at: u64) -> Option<[u8; PAGE_BYTES]>
        requires { 0 < n }
        ensures value { result ≡ renewed_bytes S.Store.layer (S.Store.pages self.old.lower) n at }
        ensures small { OnSome result (check (read_buffer (S.Store.pages self.old.lower) n blank) < 2 ^ 64) }
        ensures still { Still S.Store.pages S.Store.kept self.old.lower self.new.lower }
    {
        let mut page = [0u8; PAGE_BYTES];
        let mut sums = [0u8; PAGE_BYTES];
        let own = self.lower.read(n, &mut page).is_ok();
        let other = self.lower.read(at, &mut sums).is_ok();
        let open = self.lower.is_open(at);
        if !(own && other && open && !agrees(&page, &sums, check_cell(n))) {
            return None;
        }
        put_cell(&mut sums, check_cell(n), weigh(&page));
        Some(sums)
    }

    // Sets the check of page n over `below` pages, if it can be set; answers how many cells that changed.
    fn seal_page(&mut self, below: u64, n: u64) -> u64
        requires { in_layer below n ≡ true }
        ensures value { result ≡ seal_answer S.Store.layer (S.Store.pages self.old.lower) n (check_page below n) }
        ensures after { S.Store.pages self.new.lower ≡ seal_pages S.Store.layer (S.Store.pages self.old.lower) n (check_page below n) }
        ensures small { stale_answer S.Store.layer (S.Store.pages self.old.lower) n (check_page below n) ≡ true → check (read_buffer (S.Store.pages self.old.lower) n blank) < 2 ^ 64 }
        ensures kept { S.Store.kept self.new.lower ≡ S.Store.kept self.old.lower }
    {
        let at = check_page(below, n);
        // not map_or: that does not say that the store below stays where there is nothing to set
        match self.renewed(n, at) {
            Some(sums) => u64::from(self.lower.write(at, &sums).is_ok()),
            None => 0,
        }
    }

    // Sets the check of every page that can be read and whose check page can be read and written; answers how many
    // cells that changed. Every such page can then be read with its bytes.
    pub fn seal(&mut self) -> u64
        ensures value { result ≡ stale_count (S.Store.pages self.old.lower) }
        ensures after { S.Store.pages self.new.lower ≡ sealed (S.Store.pages self.old.lower) }
        ensures cells { Sealed (S.Store.pages self.old.lower) (S.Store.pages self.new.lower) }
        ensures layer { checked (S.Store.pages self.new.lower) ≡ sealed_layer (S.Store.pages self.old.lower) }
        ensures kept { S.Store.kept self.new.lower ≡ S.Store.kept self.old.lower }
    {
        let below = self.lower.count();
        let mut changed = 0;
        for n in 1..=checked_count(below) {
            changed += self.seal_page(below, n);
        }
        changed
    }
}
