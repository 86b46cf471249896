// Type descriptors.
ghost use Rattle.std.specs.Prelude.{◌≡◌};
ghost use Rattle.page.specs.Descriptors.{linked};

// A type of object: its number of fields, and a mask whose bit f says that field f is a link. The default has no fields.
#[derive(Clone, Copy, Debug, Default, PartialEq, Eq)]
pub struct Descriptor {
    pub size: u64,
    pub mask: u64,
}

impl Descriptor {
    // Whether the field, counted from 0, is a link.
    pub fn is_link(self, field: u64) -> bool
        ensures { result ≡ linked self field }
    {
        field < 64 && (self.mask >> field) % 2 == 1
    }
}
