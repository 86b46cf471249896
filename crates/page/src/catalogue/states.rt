ghost use Rattle.std.specs.Prelude.{◌≡◌, ℕ, ◌<◌, [], ◌∷◌, ◌++◌, IfSome};
ghost use Rattle.page.specs.Descriptors.{Good, declare_answer, declare_types, found};
ghost use Rattle.page.specs.Types.{listed, types_so_far, types};

use crate::catalogue::{ClosedCatalogue, DeclaringCatalogue, Table};
use crate::descriptor::Descriptor;
use fault::{Cause, Fault, Place};

// The layer of plan and catalogue.
const LAYER: u32 = 1;

const MOST: u64 = 32;

impl Table {
    fn empty() -> Table
        ensures { listed result ≡ [] }
    {
        Table {
            count: 0,
            descriptors: [Descriptor::default(); 32],
        }
    }

    // The declared types, in their order.
    fn types(&self) -> &[Descriptor]
        ensures { result.now ≡ listed self.now }
    {
        &self.descriptors[..self.count as usize]
    }

    // Adds a type, in place: a table that is handed on whole is copied at each type.
    #[tactic(auto, using(crate::proofs::Declares::all_more))]
    fn add(&mut self, descriptor: Descriptor)
        requires count_bound { self.old.count < 32 }
        requires good { Good descriptor }
        ensures { listed self.new ≡ listed self.old ++ descriptor ∷ [] }
    {
        self.descriptors[self.count as usize] = descriptor;
        self.count += 1;
    }
}

impl DeclaringCatalogue {
    // A catalogue with no types yet.
    pub fn new() -> DeclaringCatalogue
        ensures { types_so_far result ≡ [] }
    {
        DeclaringCatalogue {
            table: Table::empty(),
        }
    }

    // The number of the type that is declared; types are numbered from 1.
    pub fn declare(&mut self, size: u64, mask: u64) -> Result<u64, Fault>
        ensures value { result ≡ declare_answer (types_so_far self.old) size mask }
        ensures types { types_so_far self.new ≡ declare_types (types_so_far self.old) size mask }
    {
        let count = self.table.count;
        if count >= MOST {
            return Err(Fault::new(Cause::CatalogueFull, LAYER, Place::nowhere()));
        }
        if !(1..=62).contains(&size) {
            return Err(Fault::new(Cause::FieldCount, LAYER, Place::nowhere()));
        }
        if mask >> size != 0 {
            return Err(Fault::new(Cause::LinkMask, LAYER, Place::nowhere()));
        }
        self.table.add(Descriptor { size, mask });
        Ok(count + 1)
    }

    // Ends the declaring.
    pub fn close(self) -> ClosedCatalogue
        ensures { types result ≡ types_so_far self }
    {
        let DeclaringCatalogue { table } = self;
        ClosedCatalogue { table }
    }
}

impl ClosedCatalogue {
    // The type of that number, if it is declared.
    pub fn descriptor(&self, number: u64) -> Option<Descriptor>
        ensures value { result ≡ found (types self.now) number }
        ensures good { IfSome result Good }
    {
        let index = number.checked_sub(1)?;
        self.table.types().get(index as usize).copied()
    }
}
