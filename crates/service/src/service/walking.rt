// Calls that move cursors.
ghost use Rattle.std.specs.Prelude.{◌≡◌, true};
ghost use Rattle.store.specs.Pages.{is_page};
ghost use Rattle.graph.specs.Steps.{page as page_check, first};
ghost use Rattle.service.specs.Calls.{done, place, Did};
ghost use Rattle.service.specs.Inner.{Entered};
ghost use Rattle.service.specs.Serving.{setting_of, Kept, graph_of};

use crate::service::Service;
use crate::service::reach::{LAYER, check_cursor, named};
use fault::{Cause, Fault, Place};
use graph::{Call, Position};
use policy::Policy;
use store::Store;

// Cell 0 stands for cell 1.
fn first_cell(cell: u64) -> u64
    ensures { result ≡ first cell }
{
    if cell == 0 { 1 } else { cell }
}

impl<S: Store, V: Policy> Service<S, V> {
    pub(super) fn check_page(&self, page: u64) -> Result<(), Fault>
        ensures { result ≡ page_check (setting_of self.now) (graph_of self.now) page }
    {
        if !self.pool.has_page(page) {
            return Err(Fault::new(Cause::NoPage, LAYER, Place::on_page(page)));
        }
        Ok(())
    }

    // Opens the page of an object and sees that one starts there.
    fn enter(&mut self, at: Position) -> Result<(), Fault>
        requires { is_page (graph_of self.old).pages at.page ≡ true }
        ensures entered { Entered self.old self.new at result }
        ensures cursors { self.new.cursors ≡ self.old.cursors }
        ensures kept { Kept self.old self.new }
    {
        let frame = self.open(at.page)?;
        if !self.pool.starts(frame, at.cell) {
            let place = Place::on_cell(at.page, at.cell);
            return Err(Fault::new(Cause::NoObject, LAYER, place));
        }
        Ok(())
    }

    // The cursor stands on an object of a page.
    pub fn stand(&mut self, cursor: u64, page: u64, cell: u64) -> Result<(), Fault>
        ensures { Did self.old self.new (Call.Stand cursor page cell) (done result) }
    {
        check_cursor(cursor)?;
        self.check_page(page)?;
        let at = Position {
            page,
            cell: first_cell(cell),
        };
        self.enter(at)?;
        self.cursors[cursor as usize] = Some(at);
        Ok(())
    }

    // The second cursor stands on what a link of the first one's object names.
    pub fn follow(&mut self, cursor: u64, field: u64, second: u64) -> Result<(), Fault>
        ensures { Did self.old self.new (Call.Follow cursor field second) (done result) }
    {
        check_cursor(cursor)?;
        check_cursor(second)?;
        let spot = self.spot(cursor, field, true)?;
        let link = Place::on_field(spot.at.page, spot.at.cell, field);
        let pointer = self.pool.stored(spot.frame, spot.at.cell, field);
        let absent = Fault::new(Cause::AbsentLink, LAYER, link);
        let at = named(pointer).ok_or(absent)?;
        self.enter(at).map_err(|fault| fault.via(link))?;
        self.cursors[second as usize] = Some(at);
        Ok(())
    }

    // The cursor becomes empty.
    pub fn leave(&mut self, cursor: u64) -> Result<(), Fault>
        ensures { Did self.old self.new (Call.Leave cursor) (done result) }
    {
        check_cursor(cursor)?;
        self.cursors[cursor as usize] = None;
        Ok(())
    }

    // The page and cell on which the cursor stands. Opens nothing.
    pub fn where_is(&self, cursor: u64) -> Result<(u64, u64), Fault>
        ensures { Did self.now self.now (Call.Where cursor) (place result) }
    {
        check_cursor(cursor)?;
        let at = self.position(cursor)?;
        Ok((at.page, at.cell))
    }
}
