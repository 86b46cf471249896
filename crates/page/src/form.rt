// A page of a store.
ghost use Rattle.std.specs.Prelude.{◌≡◌, length};

mod faults;

use crate::catalogue::ClosedCatalogue;
pub use faults::first_fault;

// The layer of the page form.
pub(crate) const LAYER: u32 = 3;

// Page `number` of a store of `pages` pages: its 512 bytes, and the types of its objects.
#[derive(Clone, Copy)]
pub(crate) struct Page<'a, 'k> {
    pub(crate) bytes: &'a [u8],
    pub(crate) number: u64,
    pub(crate) pages: u64,
    pub(crate) catalogue: &'k ClosedCatalogue,
    ghost whole: { length bytes.now ≡ 512 },
}
