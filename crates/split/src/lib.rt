// Two stores as one: the pages of the second after those of the first, 1,024 at most.
#![tactic(auto)]

ghost use Rattle.std.specs.Prelude.{◌≡◌, length};
ghost use Rattle.store.specs.Pages.{both};
ghost use Rattle.store.specs.Rules.{open_at, read_answer, read_buffer, write_answer, write_pages};
ghost use Rattle.split.specs.Joined.{joined, joined_lawful};
ghost use Rattle.split.specs.Sides.{side_of, side_answer, of_side, in_side, Still};

use fault::{Cause, Fault, Place};
use store::{MOST_PAGES, PAGE_BYTES, Store};

// The layer of its own refusals. A proof of a generic impl can't read LAYER.
const SPLIT: u32 = 7;

#[derive(Drop)]
pub struct Split<A: Store, B: Store> {
    first: A,
    second: B,
}

// The part that holds a page, with the page's number there.
#[derive(Clone, Copy, Debug, PartialEq, Eq)]
enum Side {
    First(u64),
    Second(u64),
}

impl<A: Store, B: Store> Split<A, B> {
    pub fn new(first: A, second: B) -> Split<A, B>
        ensures first { result.first ≡ first }
        ensures second { result.second ≡ second }
    {
        Split { first, second }
    }

    // The first part, for one who writes it back.
    pub fn first(&self) -> &A
        ensures { result.now ≡ self.now.first }
    {
        &self.first
    }

    // The second part, for one who writes it back. The two are of two types, so each has its own call.
    pub fn second(&self) -> &B
        ensures { result.now ≡ self.now.second }
    {
        &self.second
    }

    // How many pages the first part has, and how many there are in all.
    #[tactic(auto, using(crate::proofs::Joins::length_joined))]
    fn counts(&mut self) -> (u64, u64)
        ensures first { result.0 ≡ length (A.Store.pages self.old.first) }
        ensures all { result.1 ≡ length (joined (A.Store.pages self.old.first) (B.Store.pages self.old.second)) }
        ensures still { Still A.Store.pages B.Store.pages A.Store.kept B.Store.kept self.old self.new }
    {
        let first = self.first.count();
        let second = self.second.count();
        (first, first.saturating_add(second).min(MOST_PAGES))
    }

    // The side of page n, if there is such a page.
    fn side(&mut self, n: u64) -> Option<Side>
        ensures value { result ≡ side_of (A.Store.pages self.old.first) (B.Store.pages self.old.second) n }
        ensures still { Still A.Store.pages B.Store.pages A.Store.kept B.Store.kept self.old self.new }
    {
        let (first, all) = self.counts();
        if !(1..=all).contains(&n) {
            return None;
        }
        Some(if n <= first {
            Side::First(n)
        } else {
            Side::Second(n - first)
        })
    }

    // The side of page n, for a buffer of len bytes.
    fn find(&mut self, n: u64, len: usize) -> Result<Side, Fault>
        ensures value { result ≡ side_answer (A.Store.pages self.old.first) (B.Store.pages self.old.second) n len }
        ensures still { Still A.Store.pages B.Store.pages A.Store.kept B.Store.kept self.old self.new }
    {
        if len != PAGE_BYTES {
            return Err(Fault::new(Cause::WrongLength, SPLIT, Place::nowhere()));
        }
        self.side(n)
            .ok_or(Fault::new(Cause::NoPage, SPLIT, Place::on_page(n)))
    }

    // Whether the page of a side may be written. The parts are of two types, which no closure can take in turn, so this
    // call and the two below choose the part each for itself.
    fn opens(&mut self, side: Side) -> bool
        ensures value { result ≡ open_at (of_side side (A.Store.pages self.old.first) (B.Store.pages self.old.second)) (in_side side) }
        ensures still { Still A.Store.pages B.Store.pages A.Store.kept B.Store.kept self.old self.new }
    {
        match side {
            Side::First(m) => self.first.is_open(m),
            Side::Second(m) => self.second.is_open(m),
        }
    }

    fn read_side(&mut self, side: Side, buf: &mut [u8]) -> Result<(), Fault>
        ensures value { result ≡ read_answer (of_side side A.Store.layer B.Store.layer) (of_side side (A.Store.pages self.old.first) (B.Store.pages self.old.second)) (in_side side) (length buf.old) }
        ensures buffer { buf.new ≡ read_buffer (of_side side (A.Store.pages self.old.first) (B.Store.pages self.old.second)) (in_side side) buf.old }
        ensures still { Still A.Store.pages B.Store.pages A.Store.kept B.Store.kept self.old self.new }
    {
        match side {
            Side::First(m) => self.first.read(m, buf),
            Side::Second(m) => self.second.read(m, buf),
        }
    }

    fn write_side(&mut self, side: Side, buf: &[u8]) -> Result<(), Fault>
        ensures value { result ≡ write_answer (of_side side A.Store.layer B.Store.layer) (of_side side (A.Store.pages self.old.first) (B.Store.pages self.old.second)) (in_side side) (length buf.now) }
        ensures first { A.Store.pages self.new.first ≡ of_side side (write_pages (A.Store.pages self.old.first) (in_side side) buf.now) (A.Store.pages self.old.first) }
        ensures second { B.Store.pages self.new.second ≡ of_side side (B.Store.pages self.old.second) (write_pages (B.Store.pages self.old.second) (in_side side) buf.now) }
        ensures kept_first { A.Store.kept self.new.first ≡ A.Store.kept self.old.first }
        ensures kept_second { B.Store.kept self.new.second ≡ B.Store.kept self.old.second }
    {
        match side {
            Side::First(m) => self.first.write(m, buf),
            Side::Second(m) => self.second.write(m, buf),
        }
    }
}

impl<A: Store, B: Store> Store for Split<A, B> {
    const LAYER: u32 = SPLIT;

    ghost layer = { 7 };

    ghost pages = { λ s. joined (A.Store.pages s.first) (B.Store.pages s.second) };

    ghost kept = { λ s. both (A.Store.kept s.first) (B.Store.kept s.second) };

    ghost laws = { joined_lawful A.Store.laws B.Store.laws (λ s. s.first) (λ s. s.second) };

    fn layer_number() -> u32 {
        SPLIT
    }

    fn count(&mut self) -> u64 {
        self.counts().1
    }

    fn is_open(&mut self, n: u64) -> bool {
        // not is_some_and: that does not say that the parts stay where there is no side
        match self.side(n) {
            Some(side) => self.opens(side),
            None => false,
        }
    }

    fn read(&mut self, n: u64, buf: &mut [u8]) -> Result<(), Fault> {
        let side = self.find(n, buf.len())?;
        // a part's answer is told of page n
        self.read_side(side, buf).map_err(|fault| fault.on_page(n))
    }

    fn write(&mut self, n: u64, buf: &[u8]) -> Result<(), Fault> {
        let side = self.find(n, buf.len())?;
        // a part that has the page refuses only where it is closed
        let closed = Fault::new(Cause::PageClosed, SPLIT, Place::on_page(n));
        self.write_side(side, buf).map_err(|_| closed)
    }
}
