// A page is opened: it is in a frame already, or is read, examined and brought into one.
ghost use Rattle.std.specs.Prelude.{◌≡◌, ◌==◌, ◌<◌, true, Some, position};
ghost use Rattle.page.specs.Types.{types};
ghost use Rattle.store.specs.Pages.{is_page};
ghost use Rattle.pageset.specs.Sets.{holds};
ghost use Rattle.pool.specs.Courses.{Opens};
ghost use Rattle.pool.specs.Fetching.{fetched_bytes};
ghost use Rattle.pool.specs.Looking.{is_in};
ghost use Rattle.pool.specs.Needs.{Covers};
ghost use Rattle.pool.specs.Opening.{Incoming};
ghost use Rattle.pool.specs.Pools.{Fixed, OpenedTo};
ghost use Rattle.stands.specs.Frames.{Lacks};

use crate::pool::Pool;
use fault::{Cause, Fault, Place};
use frame::{Frame, cells_of, linked_pages};
use page::{ClosedCatalogue, first_fault};
use pageset::PageSet;
use policy::Policy;
use store::{PAGE_BYTES, Store};

// The layer of the addresses.
const LAYER: u32 = 4;

// The bytes of page n of a store, read and examined.
fn fetch<S: Store>(
    store: &mut S,
    n: u64,
    pages: u64,
    catalogue: &ClosedCatalogue,
) -> Result<[u8; PAGE_BYTES], Fault>
    ensures value { result ≡ fetched_bytes S.Store.layer (types catalogue.now) pages (S.Store.pages store.old) n }
    ensures same { S.Store.pages store.new ≡ S.Store.pages store.old }
{
    let mut bytes = [0; PAGE_BYTES];
    (*store).read(n, &mut bytes)?;
    first_fault(&bytes, n, pages, catalogue)?;
    Ok(bytes)
}

impl<S: Store, V: Policy> Pool<S, V> {
    // The frame that holds page n.
    fn find(&self, n: u64) -> Option<usize>
        ensures { result ≡ position (is_in n) self.now.frames }
    {
        self.frames
            .iter()
            .position(|held| held.as_ref().is_some_and(|frame| frame.page == n))
    }

    // Brings page n, given by its bytes, into a frame beside the pages that cursors stand on.
    fn enter(
        &mut self,
        n: u64,
        bytes: &[u8; PAGE_BYTES],
        standing: &PageSet,
    ) -> Result<usize, Fault>
        requires { Incoming (types self.old.catalogue) (S.Store.pages self.old.store) self.old.frames n bytes.now }
        ensures opened { OpenedTo (holds standing.now.words) n self.old self.new result }
        ensures course { Opens (holds standing.now.words) n self.old self.new result }
        ensures fixed { Fixed self.old self.new }
    {
        let cells = cells_of(bytes);
        let mut needs = linked_pages(&cells, &self.catalogue);
        needs.add(n as u16);
        let asked = needs.union(standing);
        let too_many = Fault::new(Cause::NoAddresses, LAYER, Place::on_page(n));
        if asked.count() > u32::from(self.table.size()) {
            return Err(too_many);
        }
        let free = self.make_room(&asked).ok_or(too_many)?;
        let wanted = self.whole(&asked);
        self.table = self.table.provide(&wanted);
        let frame = Frame::load(n, &cells, needs, &self.table, &self.catalogue);
        self.frames[free] = Some(frame);
        self.policy.touch(free);
        Ok(free)
    }

    // Reads page n, which no frame holds, and brings it into one. Never inlined, since `open` would then clear room for the
    // bytes of a page also where a frame holds it.
    #[inline(never)]
    fn bring(&mut self, n: u64, standing: &PageSet) -> Result<usize, Fault>
        requires { Lacks self.old.frames n }
        ensures opened { is_page (S.Store.pages self.old.store) n ≡ true → OpenedTo (holds standing.now.words) n self.old self.new result }
        ensures course { is_page (S.Store.pages self.old.store) n ≡ true → Opens (holds standing.now.words) n self.old self.new result }
        ensures fixed { Fixed self.old self.new }
    {
        let bytes = fetch(&mut self.store, n, self.pages, &self.catalogue)?;
        self.enter(n, &bytes, standing)
    }

    // Sees that page n is in a frame, and answers which. Pages that cursors stand on keep their slots.
    pub fn open(&mut self, n: u64, standing: &PageSet) -> Result<usize, Fault>
        ensures opened { is_page (S.Store.pages self.old.store) n ≡ true → Covers self.old.table.slot_of (holds standing.now.words) → OpenedTo (holds standing.now.words) n self.old self.new result }
        ensures course { is_page (S.Store.pages self.old.store) n ≡ true → Opens (holds standing.now.words) n self.old self.new result }
        ensures fixed { Fixed self.old self.new }
    {
        if let Some(held) = self.find(n) {
            self.policy.touch(held);
            return Ok(held);
        }
        self.bring(n, standing)
    }
}
