// How a call comes to an object: its cursor, the opening of its page, the field.
ghost use Rattle.std.specs.Prelude.{◌≡◌, ℕ, ◌≤◌, true, ◌&&◌, ◌||◌, None, OnOk, slice_index_or};
ghost use Rattle.fault.specs.Faults.{nowhere, fault};
ghost use Rattle.fault.specs.Refusals.{◌otherwise◌};
ghost use Rattle.fault.specs.declared.kinds.Cause.TheVariants.{EmptyCursor};
ghost use Rattle.frame.specs.Links.{is_page as is_number};
ghost use Rattle.pageset.specs.Sets.{holds};
ghost use Rattle.store.specs.Pages.{is_page};
ghost use Rattle.page.specs.Links.{named as named_of};
ghost use Rattle.graph.specs.Graphs.{on_cursor};
ghost use Rattle.graph.specs.Steps.{cursor as cursor_check, stands_on};
ghost use Rattle.service.specs.Inner.{on, Came, Reached};
ghost use Rattle.service.specs.Serving.{setting_of, Kept, graph_of};

use crate::service::Service;
use fault::{Cause, Fault, Place};
use graph::Position;
use pageset::PageSet;
use policy::Policy;
use store::{MOST_PAGES, Store};

// The layer of the calls.
pub(super) const LAYER: u32 = 2;

const LAST_CURSOR: u64 = 15;

// The object on which a cursor stands, and the frame that its page is in.
#[derive(Clone, Copy)]
pub(super) struct Spot {
    pub(super) frame: usize,
    pub(super) at: Position,
}

pub(super) fn check_cursor(cursor: u64) -> Result<(), Fault>
    ensures value { result ≡ cursor_check cursor }
    ensures within { OnOk result (cursor ≤ 15) }
{
    if cursor > LAST_CURSOR {
        return Err(Fault::new(Cause::NoCursor, LAYER, Place::nowhere()));
    }
    Ok(())
}

// The object that a long pointer names, if any.
pub(super) fn named(pointer: u64) -> Option<Position>
    ensures { result ≡ named_of pointer }
{
    if pointer == 0 {
        return None;
    }
    Some(Position::from(pointer))
}

// Puts the page on which a cursor stands into the set.
fn add_page(pages: &mut PageSet, held: Option<Position>)
    ensures { (m : ℕ) → holds pages.new.words m ≡ (holds pages.old.words m || (on held m && is_number m)) }
{
    let Some(at) = held else {
        return;
    };
    if at.page > MOST_PAGES {
        return;
    }
    pages.add(at.page as u16);
}

impl<S: Store, V: Policy> Service<S, V> {
    // The pages on which cursors stand.
    fn standing(&self) -> PageSet
        ensures { (m : ℕ) → holds result.words m ≡ (on_cursor self.now.cursors m && is_number m) }
    {
        let mut pages = PageSet::new();
        for held in &self.cursors {
            add_page(&mut pages, *held);
        }
        pages
    }

    fn held(&self, cursor: u64) -> Option<Position>
        ensures { result ≡ slice_index_or self.now.cursors cursor None }
    {
        self.cursors.get(cursor as usize).copied().flatten()
    }

    // Where a cursor stands.
    pub(super) fn position(&self, cursor: u64) -> Result<Position, Fault>
        ensures { result ≡ stands_on (setting_of self.now) (graph_of self.now) cursor }
    {
        self.held(cursor)
            .ok_or(Fault::new(Cause::EmptyCursor, LAYER, Place::nowhere()))
    }

    // Sees that page n is in a frame, and answers which.
    pub(super) fn open(&mut self, n: u64) -> Result<usize, Fault>
        requires { is_page (graph_of self.old).pages n ≡ true }
        ensures came { Came self.old self.new n result }
        ensures cursors { self.new.cursors ≡ self.old.cursors }
        ensures kept { Kept self.old self.new }
    {
        let standing = self.standing();
        self.pool.open(n, &standing)
    }

    // The field of the object on which the cursor stands, if it is a link or a number as asked for.
    pub(super) fn spot(&mut self, cursor: u64, field: u64, link: bool) -> Result<Spot, Fault>
        ensures reached { Reached self.old self.new cursor field link result }
        ensures cursors { self.new.cursors ≡ self.old.cursors }
        ensures kept { Kept self.old self.new }
    {
        let at = self.position(cursor)?;
        let frame = self.open(at.page)?;
        let kind = self.pool.kind(frame, at.cell);
        let place = Place::on_field(at.page, at.cell, field);
        if field >= kind.size {
            return Err(Fault::new(Cause::NoField, LAYER, place));
        }
        if kind.is_link(field) != link {
            return Err(Fault::new(Cause::WrongKind, LAYER, place));
        }
        Ok(Spot { frame, at })
    }
}
