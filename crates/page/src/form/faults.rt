// The first fault of a page, examined from cell 0 upwards.
ghost use Rattle.std.specs.Prelude.{◌≡◌, ◌+◌, ◌-◌, ◌<◌, ◌≤◌, IfOk};
ghost use Rattle.fault.specs.Faults.{on_cell, fault};
ghost use Rattle.page.specs.Cells.{cell_at};
ghost use Rattle.page.specs.Form.{head_of, links_fault, unused_fault, object_at, examined};
ghost use Rattle.page.specs.Types.{types};

use crate::catalogue::ClosedCatalogue;
use crate::cells::cell_at;
use crate::descriptor::Descriptor;
use crate::form::{LAYER, Page};
use crate::link::to_link;
use crate::reader::Reader;
use fault::{Cause, Fault, Place};

impl<'a, 'k> Page<'a, 'k> {
    pub(crate) fn cell_at(&self, i: u64) -> u64
        requires { i < 64 }
        ensures { result ≡ cell_at self.now.bytes.now i }
    {
        cell_at(self.bytes, i)
    }

    pub(crate) fn fault(&self, cause: Cause, cell: u64) -> Fault
        ensures { result ≡ fault cause 3 (on_cell self.now.number cell) }
    {
        Fault::new(cause, LAYER, Place::on_cell(self.number, cell))
    }

    #[tactic(auto, using(crate::proofs::Steps::links_more))]
    fn links_fault(&self, cell: u64, descriptor: Descriptor) -> Result<(), Fault>
        requires { cell + descriptor.size ≤ 63 }
        ensures { result ≡ links_fault self.now.pages self.now.number self.now.bytes.now descriptor cell 0 descriptor.size }
    {
        // No plainer as a chain: a fault needs the field, its number and the cause at once. With `map_err(..)?` inside, a
        // proof learns nothing of the fault that the closure makes.
        for field in 0..descriptor.size {
            if descriptor.is_link(field) {
                if let Err(cause) = to_link(self.cell_at(cell + 1 + field), self.pages) {
                    return Err(Fault::new(cause, LAYER, Place::on_field(self.number, cell, field)));
                }
            }
        }
        Ok(())
    }

    // The size of the object at the cell, or its first fault.
    pub(crate) fn object_at(&self, cell: u64) -> Result<u64, Fault>
        requires head_bound { head_of self.now.bytes.now ≤ 63 }
        requires cell_bound { cell ≤ head_of self.now.bytes.now }
        ensures value { result ≡ object_at self.now.pages self.now.number self.now.bytes.now (types self.now.catalogue.now) cell }
        ensures within { IfOk result (λ s. cell + s ≤ head_of self.now.bytes.now) }
    {
        let descriptor = self
            .catalogue
            .descriptor(self.cell_at(cell))
            .ok_or(self.fault(Cause::UndeclaredType, cell))?;
        if cell + descriptor.size > self.cell_at(0) {
            return Err(self.fault(Cause::ObjectTooLong, cell));
        }
        self.links_fault(cell, descriptor)?;
        Ok(descriptor.size)
    }

    // The first cell after the used ones that is not zero.
    pub(crate) fn unused_fault(&self, used: u64) -> Result<(), Fault>
        requires { used ≤ 63 }
        ensures { result ≡ unused_fault self.now.number self.now.bytes.now (used + 1) (63 - used) }
    {
        // Tried as a `map_or`: it is no plainer, and its proof did not close.
        if let Some(cell) = (used + 1..64).find(|&cell| self.cell_at(cell) != 0) {
            return Err(self.fault(Cause::NotZero, cell));
        }
        Ok(())
    }
}

// The first fault of page `page` of a store of `pages` pages. The four are given apart, as those who call hold them: they
// have just read the bytes.
pub fn first_fault(
    bytes: &[u8],
    page: u64,
    pages: u64,
    catalogue: &ClosedCatalogue,
) -> Result<(), Fault>
    ensures { result ≡ examined pages page bytes.now (types catalogue.now) }
{
    let mut reader = Reader::new(bytes, page, pages, catalogue)?;
    while let Some(part) = reader.step() {
        part?;
    }
    Ok(())
}
