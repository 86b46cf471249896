// A catalogue of types, first declared and then closed: two states, two types.
ghost use Rattle.std.specs.Prelude.{◌≡◌, ◌≤◌, length};
ghost use Rattle.page.specs.Descriptors.{AllGood};

mod states;

use crate::descriptor::Descriptor;

// The first `count` descriptors are declared. An array with its count: a catalogue is copied and has no heap, and no vector
// is `Copy`.
#[derive(Clone, Copy)]
struct Table {
    count: u64,
    descriptors: [Descriptor; 32],
    ghost within: { count ≤ 32 },
    ghost long: { length descriptors ≡ 32 },
    ghost good: { AllGood count descriptors },
}

// Types may still be declared.
#[derive(Drop)]
pub struct DeclaringCatalogue {
    table: Table,
}

// No more types are declared. It comes only by moving a declaring catalogue.
#[derive(Clone, Copy)]
pub struct ClosedCatalogue {
    table: Table,
}
