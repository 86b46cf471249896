// The studio's types.
ghost use Rattle.std.specs.Prelude.{◌≡◌};
ghost use Rattle.page.specs.Descriptors.{declare_all, studio_types};
ghost use Rattle.page.specs.Types.{types, types_so_far};

use crate::catalogue::{ClosedCatalogue, DeclaringCatalogue};
use crate::descriptor::Descriptor;

// Numeral, lead line, part, view, sheet.
const STUDIO: [Descriptor; 5] = [
    Descriptor { size: 3, mask: 6 },
    Descriptor { size: 6, mask: 48 },
    Descriptor { size: 4, mask: 14 },
    Descriptor { size: 4, mask: 14 },
    Descriptor { size: 3, mask: 6 },
];

// Declares the types one after another; a refused one is passed over.
#[tactic(auto, using(crate::proofs::Declares::declare_more, std::proofs::lemmas::List::take_all))]
fn declare_all(catalogue: &mut DeclaringCatalogue, table: &[Descriptor])
    ensures { types_so_far catalogue.new ≡ declare_all (types_so_far catalogue.old) table.now }
{
    for descriptor in table {
        let _ = catalogue.declare(descriptor.size, descriptor.mask);
    }
}

// The studio's catalogue.
pub fn studio_catalogue() -> ClosedCatalogue
    ensures { types result ≡ studio_types }
{
    let mut catalogue = DeclaringCatalogue::new();
    declare_all(&mut catalogue, &STUDIO);
    catalogue.close()
}
