// What stands in a frame, told of the page of long pointers that it holds.
ghost use Rattle.std.specs.Prelude.{◌≡◌, ◌+◌, ◌<◌, true, Some, None, slice_index, slice_index_or};
ghost use Rattle.page.specs.Cells.{cell_at};
ghost use Rattle.page.specs.Descriptors.{declared};
ghost use Rattle.page.specs.Form.{field_at};
ghost use Rattle.page.specs.Types.{types};
ghost use Rattle.frame.specs.declared.frame.Frame.{Frame};
ghost use Rattle.stands.specs.Frames.{HasAt};
ghost use Rattle.graph.specs.Steps.{starts_at};
ghost use Rattle.pool.specs.Looking.{field_shown};
ghost use Rattle.pool.specs.Pools.{long_of, StartsIn, kind_in};

use crate::pool::Pool;
use frame::{Frame, starts_at, to_pointer};
use page::Descriptor;
use policy::Policy;
use store::Store;

impl<S: Store, V: Policy> Pool<S, V> {
    pub(super) fn held(&self, k: usize) -> Option<Frame>
        ensures { result ≡ slice_index_or self.now.frames k None }
    {
        self.frames.get(k).copied().flatten()
    }

    // Whether an object starts at the cell of the page in frame k.
    pub fn starts(&self, k: usize, cell: u64) -> bool
        ensures { (f : Frame) → HasAt self.now.frames k f → result ≡ starts_at (types self.now.catalogue) (long_of self.now f) cell }
    {
        self.held(k)
            .is_some_and(|frame| starts_at(&frame.cells, &self.catalogue, cell))
    }

    // The type of the object that starts at the cell of the page in frame k. No call here can be refused, so none answers
    // an option: this one answers a type of no fields where the cell's number is no type.
    pub fn kind(&self, k: usize, cell: u64) -> Descriptor
        ensures { (f : Frame) → StartsIn self.now k f cell → result ≡ kind_in self.now f cell }
    {
        let header = self.header(k, cell);
        self.catalogue.descriptor(header).unwrap_or_default()
    }

    // The number in the cell of the page in frame k: the header, if an object starts there, and 0, which no type has, where
    // there is no such frame or cell.
    fn header(&self, k: usize, cell: u64) -> u64
        ensures { (f : Frame) → StartsIn self.now k f cell → (result ≡ cell_at (long_of self.now f) cell) × (declared (types self.now.catalogue) result ≡ true) }
    {
        self.number(k, cell).unwrap_or(0)
    }

    // The number in cell i of the page in frame k.
    fn number(&self, k: usize, i: u64) -> Option<u64>
        ensures { (f : Frame) → HasAt self.now.frames k f → i < 64 → result ≡ Some (slice_index f.cells i) }
    {
        self.held(k)?.cells.get(i as usize).copied()
    }

    // The number in the cell of a field of the object at the cell of the page in frame k.
    fn in_field(&self, k: usize, cell: u64, field: u64) -> Option<u64>
        ensures { (f : Frame) → HasAt self.now.frames k f → cell + 1 + field < 64 → result ≡ Some (slice_index f.cells (cell + 1 + field)) }
    {
        self.number(k, cell.checked_add(1)?.checked_add(field)?)
    }

    // What stands in a field of the object that starts at the cell of the page in frame k: a number, or the address of
    // its link. This call and the next can't be refused: they answer 0 where there is no such frame or cell.
    pub fn field(&self, k: usize, cell: u64, field: u64) -> u64
        ensures { (f : Frame) → StartsIn self.now k f cell → field < (kind_in self.now f cell).size → result ≡ field_shown (types self.now.catalogue) self.now.table.slot_of (long_of self.now f) cell field }
    {
        self.in_field(k, cell, field).unwrap_or(0)
    }

    // What a field of the object that starts at the cell of the page in frame k holds in the store: a number, or a long
    // pointer.
    pub fn stored(&self, k: usize, cell: u64, field: u64) -> u64
        ensures { (f : Frame) → StartsIn self.now k f cell → field < (kind_in self.now f cell).size → result ≡ field_at (long_of self.now f) cell field }
    {
        let link = self.kind(k, cell).is_link(field);
        let number = self.in_field(k, cell, field).unwrap_or(0);
        to_pointer(&self.table, link, number)
    }
}
