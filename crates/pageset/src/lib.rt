// Sets of the pages 1 to 1024.
#![tactic(auto)]

ghost use Rattle.std.specs.Prelude.{◌≡◌, ℕ, ◌+◌, ◌-◌, ◌/◌, ◌%◌, ◌<◌, ◌≤◌, ◌⊎◌, true, false, not, ◌&&◌, ◌||◌, length, count_ones, position, MatchOption, ◌≢◌};
ghost use Rattle.pageset.specs.Sets.{holds, tally, Words, used, NoneAfter, FirstAfter};

use std::array;

// A set of pages.
#[derive(Clone, Copy, Debug, PartialEq, Eq)]
pub struct PageSet {
    words: [u64; 16],
    ghost sized: { length words ≡ 16 },
    ghost bits: { Words words },
}

// The word of a page and its bit there, if a set can have the page.
fn place(page: u16) -> Option<(usize, u16)>
    ensures { MatchOption result ((page ≡ 0) ⊎ (1024 < page)) (λ p. (0 < page) × (page ≤ 1024) × (p.0 ≡ (page - 1) / 64) × (p.1 ≡ (page - 1) % 64)) }
{
    let k = page.checked_sub(1).filter(|k| *k < 1024)?;
    Some((k as usize / 64, k % 64))
}

// How many bits of a word are set.
fn ones(word: u64) -> u32
    ensures value { result ≡ count_ones word }
    ensures few { result ≤ 64 }
{
    word.count_ones()
}

// The first word that has a page.
fn first_used(words: &[u64]) -> Option<usize>
    ensures { result ≡ position used words.now }
{
    words.iter().position(|word| *word != 0)
}

impl PageSet {
    // The set of no page.
    pub fn new() -> Self
        ensures { (n : ℕ) → holds result.words n ≡ false }
    {
        PageSet { words: [0; 16] }
    }

    // Whether a page is in the set.
    pub fn has(&self, page: u16) -> bool
        ensures { result ≡ holds self.now.words page }
    {
        place(page).is_some_and(|(word, bit)| (self.words[word] >> bit) % 2 == 1)
    }

    // Puts a page into the set. Passes over 0 and numbers above 1024.
    pub fn add(&mut self, page: u16)
        ensures added { 0 < page → page ≤ 1024 → holds self.new.words page ≡ true }
        ensures others { (n : ℕ) → (n ≢ page) → holds self.new.words n ≡ holds self.old.words n }
    {
        if let Some((word, bit)) = place(page) {
            self.words[word] |= 1 << bit;
        }
    }

    // Takes a page out of the set. Passes over 0 and numbers above 1024.
    pub fn remove(&mut self, page: u16)
        ensures gone { holds self.new.words page ≡ false }
        ensures others { (n : ℕ) → (n ≢ page) → holds self.new.words n ≡ holds self.old.words n }
    {
        if let Some((word, bit)) = place(page) {
            self.words[word] &= !(1 << bit);
        }
    }

    // The pages of either set.
    pub fn union(&self, other: &PageSet) -> Self
        ensures { (n : ℕ) → holds result.words n ≡ (holds self.now.words n || holds other.now.words n) }
    {
        PageSet {
            words: array::from_fn(|i| self.words[i] | other.words[i]),
        }
    }

    // The pages of this set that are not in the other.
    pub fn minus(&self, other: &PageSet) -> Self
        ensures { (n : ℕ) → holds result.words n ≡ (holds self.now.words n && not (holds other.now.words n)) }
    {
        PageSet {
            words: array::from_fn(|i| self.words[i] & !other.words[i]),
        }
    }

    // How many pages are in the set.
    pub fn count(&self) -> u32
        ensures { result ≡ tally (holds self.now.words) 1024 }
    {
        self.words.iter().map(|word| ones(*word)).sum()
    }

    // The first page of the set above a page.
    pub fn after(&self, page: u16) -> Option<u16>
        ensures { MatchOption result (NoneAfter (holds self.now.words) page) (FirstAfter (holds self.now.words) page) }
    {
        if page >= 1024 {
            return None;
        }
        let first = page as usize / 64;
        let rest = self.words[first] >> (page % 64);
        if rest != 0 {
            return Some(page + 1 + rest.trailing_zeros() as u16);
        }
        let i = first + 1 + first_used(&self.words[first + 1..])?;
        Some(i as u16 * 64 + 1 + self.words[i].trailing_zeros() as u16)
    }
}
