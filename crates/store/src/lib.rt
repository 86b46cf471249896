// A store of pages: what can be read and written page by page.
#![tactic(auto)]

ghost use Rattle.std.specs.Prelude.{◌≡◌, ℕ, List, length};
ghost use Rattle.store.specs.Pages.{Page, Lawful, Kept, nothing};
ghost use Rattle.store.specs.Rules.{open_at, read_answer, read_buffer, write_answer, write_pages};

mod frozen;
mod image;
mod lent;
mod row;

use fault::Fault;
pub use frozen::Frozen;
pub use image::Image;

// The bytes of a page.
pub const PAGE_BYTES: usize = 512;

// How many pages a store has at most.
pub const MOST_PAGES: u64 = 1024;

// Pages are numbered from 1. A call that is refused changes nothing. What a call keeps stands in its own clauses, for one
// who writes a further store to read there.
pub trait Store {
    // The layer that faults of this kind of store name.
    const LAYER: u32;

    // The number that LAYER is, and layer_number answers: in an impl with a lifetime, as Image's, the constant can't
    // have a ghost twin.
    ghost layer: { ℕ };

    // What the store holds.
    ghost pages: { Self → List Page };

    // What it keeps beside its pages.
    ghost kept: { Self → Kept } = { λ _. nothing };

    ghost laws: { Lawful pages };

    fn layer_number() -> u32
        ensures { result ≡ layer };

    // How many pages there are.
    fn count(&mut self) -> u64
        ensures value { result ≡ length (pages self.old) }
        ensures same { pages self.new ≡ pages self.old }
        ensures kept { kept self.new ≡ kept self.old };

    // Whether page n is there and may be written.
    fn is_open(&mut self, n: u64) -> bool
        ensures value { result ≡ open_at (pages self.old) n }
        ensures same { pages self.new ≡ pages self.old }
        ensures kept { kept self.new ≡ kept self.old };

    // Copies page n into buf.
    fn read(&mut self, n: u64, buf: &mut [u8]) -> Result<(), Fault>
        ensures value { result ≡ read_answer layer (pages self.old) n (length buf.old) }
        ensures buffer { buf.new ≡ read_buffer (pages self.old) n buf.old }
        ensures same { pages self.new ≡ pages self.old }
        ensures kept { kept self.new ≡ kept self.old };

    // Copies buf into page n.
    fn write(&mut self, n: u64, buf: &[u8]) -> Result<(), Fault>
        ensures value { result ≡ write_answer layer (pages self.old) n (length buf.now) }
        ensures after { pages self.new ≡ write_pages (pages self.old) n buf.now }
        ensures kept { kept self.new ≡ kept self.old };
}
