// A walk over the cells of a page by its headers. Cells and catalogue are given apart: a pool holds the cells of its frames
// beside its one catalogue, and would have to put the two together for each call.
ghost use Rattle.std.specs.Prelude.{◌≡◌, ◌+◌, ◌-◌, ◌<◌, ◌≤◌, true, false, drop, take, nat_lt, ◌&&◌, slice_index_or};
ghost use Rattle.std.specs.List.{fold};
ghost use Rattle.page.specs.Types.{types};
ghost use Rattle.page.specs.Walks.{kind_of, odd, link_cells, start_cells};
ghost use Rattle.frame.specs.Links.{has_field, no_fields, fields_after};

use page::{ClosedCatalogue, Descriptor};

// The last cell of a page.
pub(crate) const LAST_CELL: u64 = 63;

// The type that a header names, of no fields where it names none.
fn kind_of(catalogue: &ClosedCatalogue, header: u64) -> Descriptor
    ensures { result ≡ kind_of (types catalogue.now) header }
{
    catalogue.descriptor(header).unwrap_or_default()
}

// The fields of an object that are still to come: how many, and a mask whose bits say which are links, the next one's
// lowest.
#[derive(Clone, Copy, Default)]
struct Fields {
    left: u64,
    links: u64,
}

impl Fields {
    // The head of a page, as a field that is no link.
    const HEAD: Fields = Fields { left: 1, links: 0 };

    // The fields that are still to come after a cell; where none were, the cell is a header.
    fn after(self, number: u64, catalogue: &ClosedCatalogue) -> Fields
        ensures { result ≡ fields_after (types catalogue.now) self number }
    {
        if self.left == 0 {
            let kind = kind_of(catalogue, number);
            return Fields {
                left: kind.size,
                links: kind.mask,
            };
        }
        Fields {
            left: self.left - 1,
            links: self.links / 2,
        }
    }

    // Whether the next cell is a field that is a link.
    fn link_next(self) -> bool
        ensures { result ≡ (nat_lt 0 self.left && odd self.links) }
    {
        self.left > 0 && self.links % 2 == 1
    }
}

// For each cell, whether it is a link.
pub(crate) fn link_cells(cells: &[u64; 64], catalogue: &ClosedCatalogue) -> [bool; 64]
    ensures { result ≡ link_cells (types catalogue.now) cells.now }
{
    let mut links = [false; 64];
    let mut fields = Fields::HEAD;
    for (i, number) in cells.iter().enumerate() {
        links[i] = fields.link_next();
        fields = fields.after(*number, catalogue);
    }
    links
}

// The fields that are still to come at a cell.
fn fields_at(cells: &[u64; 64], catalogue: &ClosedCatalogue, cell: usize) -> Fields
    requires { (0 < cell) × (cell ≤ 64) }
    ensures { result ≡ fold (fields_after (types catalogue.now)) no_fields (take (cell - 1) (drop 1 cells.now)) }
{
    cells[1..cell]
        .iter()
        .fold(Fields::default(), |fields, number| {
            fields.after(*number, catalogue)
        })
}

// Whether an object starts at the cell.
pub fn starts_at(cells: &[u64; 64], catalogue: &ClosedCatalogue, cell: u64) -> bool
    ensures value { result ≡ slice_index_or (start_cells (types catalogue.now) cells.now) cell false }
    ensures within { result ≡ true → cell < 64 }
{
    if cell == 0 || cell > LAST_CELL {
        return false;
    }
    let i = cell as usize;
    fields_at(cells, catalogue, i).left == 0 && catalogue.descriptor(cells[i]).is_some()
}

// Whether an object starts at the cell and has the field.
pub(crate) fn has_field(
    cells: &[u64; 64],
    catalogue: &ClosedCatalogue,
    cell: u64,
    field: u64,
) -> bool
    ensures value { result ≡ has_field (types catalogue.now) cells.now cell field }
    ensures within { result ≡ true → cell + 1 + field < 64 }
{
    starts_at(cells, catalogue, cell)
        && field < kind_of(catalogue, cells[cell as usize]).size
        && field < LAST_CELL - cell
}
