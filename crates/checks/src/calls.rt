// The parts of a call, in the words of the store below. Page n and the page `at` of its check go as two numbers: every
// clause speaks of them apart, and as one struct they would only be longer to say.
ghost use Rattle.std.specs.Prelude.{◌≡◌, ◌^◌, ◌<◌, ◌≤◌, length, OnOk};
ghost use Rattle.store.specs.Rules.{read_buffer};
ghost use Rattle.checks.specs.Layer.{check};
ghost use Rattle.checks.specs.Calls.{place_answer, verified_bytes, ready_bytes, Still, put_answer, put_pages, blank};

use crate::sums::{agrees, check_cell, check_page, for_page, in_layer, weigh};
use crate::{CHECKS, Checks};
use fault::{Cause, Fault, Place};
use page::put_cell;
use store::{PAGE_BYTES, Store};

impl<S: Store> Checks<S> {
    // The page below with the check of page n, for a buffer of len bytes.
    pub(super) fn place(&mut self, n: u64, len: usize) -> Result<u64, Fault>
        ensures value { result ≡ place_answer (S.Store.pages self.old.lower) n len }
        ensures inside { OnOk result ((0 < n) × (len ≡ 512)) }
        ensures still { Still S.Store.pages S.Store.kept self.old.lower self.new.lower }
    {
        if len != PAGE_BYTES {
            return Err(Fault::new(Cause::WrongLength, CHECKS, Place::nowhere()));
        }
        let below = self.lower.count();
        if !in_layer(below, n) {
            return Err(Fault::new(Cause::NoPage, CHECKS, Place::on_page(n)));
        }
        Ok(check_page(below, n))
    }

    // The bytes of page n, which is refused if it differs from its check in page `at` below.
    pub(super) fn verify(&mut self, n: u64, at: u64) -> Result<[u8; PAGE_BYTES], Fault>
        requires { 0 < n }
        ensures value { result ≡ verified_bytes S.Store.layer (S.Store.pages self.old.lower) n at }
        ensures still { Still S.Store.pages S.Store.kept self.old.lower self.new.lower }
    {
        let mut page = [0u8; PAGE_BYTES];
        self.lower.read(n, &mut page)?;
        let mut sums = [0u8; PAGE_BYTES];
        for_page(self.lower.read(at, &mut sums), n)?;
        if !agrees(&page, &sums, check_cell(n)) {
            return Err(Fault::new(Cause::CheckDiffers, CHECKS, Place::on_page(n)));
        }
        Ok(page)
    }

    // The bytes of page `at` below, if it can be read, and page n and page `at` are open.
    pub(super) fn ready(&mut self, n: u64, at: u64) -> Option<[u8; PAGE_BYTES]>
        ensures value { result ≡ ready_bytes S.Store.layer (S.Store.pages self.old.lower) n at }
        ensures still { Still S.Store.pages S.Store.kept self.old.lower self.new.lower }
    {
        let mut sums = [0u8; PAGE_BYTES];
        let seen = self.lower.read(at, &mut sums).is_ok();
        let own = self.lower.is_open(n);
        let other = self.lower.is_open(at);
        (own && other && seen).then_some(sums)
    }

    // Writes page n, and then its check into page `at` below, of which `sums` has the bytes.
    pub(super) fn put(&mut self, n: u64, at: u64, page: &[u8], sums: &mut [u8]) -> Result<(), Fault>
        requires short { length page.now ≤ 512 }
        requires whole { length sums.old ≡ 512 }
        requires first { 0 < n }
        ensures small { check page.now < 2 ^ 64 }
        ensures value { result ≡ put_answer S.Store.layer (S.Store.pages self.old.lower) n at page.now }
        ensures after { S.Store.pages self.new.lower ≡ put_pages S.Store.layer (S.Store.pages self.old.lower) n at page.now sums.old }
        ensures kept { S.Store.kept self.new.lower ≡ S.Store.kept self.old.lower }
    {
        put_cell(sums, check_cell(n), weigh(page));
        self.lower.write(n, page)?;
        for_page(self.lower.write(at, sums), n)
    }
}
