// A page in a frame.
ghost use Rattle.std.specs.Prelude.{◌≡◌, ℕ, ◌+◌, false, ◌||◌, List, length, is_some, if◌then◌else◌, Some, None, slice_index, slice_set};
ghost use Rattle.page.specs.Types.{types};
ghost use Rattle.page.specs.Walks.{page_of};
ghost use Rattle.frame.specs.Links.{swizzled, unswizzled, pointer, has_field, field_value, room_for, appended};
ghost use Rattle.frame.specs.Laws.{EndsAt};
ghost use Rattle.frame.specs.Links.{Small};

use crate::bytes::bytes_of;
use crate::links::{swizzle, unswizzle};
use crate::walk::{LAST_CELL, has_field};
use address::AddressTable;
use page::ClosedCatalogue;
use pageset::PageSet;

// A page by its number, whether it was changed since it was loaded, its cells with addresses for links, and the pages
// that need a slot for it: itself and those that it links to.
#[derive(Clone, Copy, Debug, PartialEq, Eq)]
pub struct Frame {
    pub page: u64,
    pub changed: bool,
    pub cells: [u64; 64],
    pub needs: PageSet,
    ghost whole: { length cells ≡ 64 },
    ghost small: { Small cells },
}

impl Frame {
    // A page of the store, given by its cells, in a frame.
    pub fn load(
        page: u64,
        cells: &[u64; 64],
        needs: PageSet,
        table: &AddressTable,
        catalogue: &ClosedCatalogue,
    ) -> Frame
        ensures page { result.page ≡ page }
        ensures changed { result.changed ≡ false }
        ensures cells { result.cells ≡ swizzled (types catalogue.now) table.now.slot_of cells.now }
        ensures needs { result.needs ≡ needs }
    {
        Frame {
            page,
            changed: false,
            cells: swizzle(cells, table, catalogue),
            needs,
        }
    }

    // The page's bytes in the store.
    pub fn bytes(&self, table: &AddressTable, catalogue: &ClosedCatalogue) -> [u8; 512]
        ensures { result ≡ page_of (unswizzled (types catalogue.now) table.now.page_of self.now.cells) }
    {
        bytes_of(&unswizzle(&self.cells, table, catalogue))
    }

    // Sets a field of an object, to a number or to an address as its type has it. Answers whether there is such a field.
    pub fn set_field(
        &mut self,
        catalogue: &ClosedCatalogue,
        cell: u64,
        field: u64,
        value: u64,
    ) -> bool
        ensures done { result ≡ has_field (types catalogue.now) self.old.cells cell field }
        ensures cells { self.new.cells ≡ (if result then slice_set self.old.cells (cell + 1 + field) value else self.old.cells) }
        ensures page { self.new.page ≡ self.old.page }
        ensures needs { self.new.needs ≡ self.old.needs }
        ensures changed { self.new.changed ≡ (result || self.old.changed) }
        ensures stored { (pages : List ℕ) → unswizzled (types catalogue.now) pages self.new.cells ≡ (if result then slice_set (unswizzled (types catalogue.now) pages self.old.cells) (cell + 1 + field) (field_value (types catalogue.now) self.old.cells (pointer pages) cell field value) else unswizzled (types catalogue.now) pages self.old.cells) }
    {
        if !has_field(&self.cells, catalogue, cell, field) {
            return false;
        }
        self.cells[(cell + 1 + field) as usize] = value;
        self.changed = true;
        true
    }

    // Appends an object of that type, whose fields are zero. Answers its cell, or none where there is no such type or no room.
    pub fn append(&mut self, catalogue: &ClosedCatalogue, header: u64) -> Option<u64>
        ensures cell { result ≡ (if room_for (types catalogue.now) self.old.cells header then Some (slice_index self.old.cells 0 + 1) else None) }
        ensures cells { self.new.cells ≡ (if is_some result then appended (types catalogue.now) (slice_index self.old.cells 0) header self.old.cells else self.old.cells) }
        ensures page { self.new.page ≡ self.old.page }
        ensures needs { self.new.needs ≡ self.old.needs }
        ensures changed { self.new.changed ≡ (is_some result || self.old.changed) }
        ensures stored { (pages : List ℕ) → EndsAt (types catalogue.now) self.old.cells (slice_index self.old.cells 0 + 1) → unswizzled (types catalogue.now) pages self.new.cells ≡ (if is_some result then appended (types catalogue.now) (slice_index self.old.cells 0) header (unswizzled (types catalogue.now) pages self.old.cells) else unswizzled (types catalogue.now) pages self.old.cells) }
    {
        let used = self.cells[0];
        if used > LAST_CELL {
            return None;
        }
        let descriptor = catalogue.descriptor(header)?;
        let last = used + 1 + descriptor.size;
        if last > LAST_CELL {
            return None;
        }
        self.cells[0] = last;
        self.cells[used as usize + 1] = header;
        self.changed = true;
        Some(used + 1)
    }
}
