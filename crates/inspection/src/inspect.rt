// The verdict on a page of any store.
ghost use Rattle.std.specs.Prelude.{◌≡◌, length};
ghost use Rattle.page.specs.Types.{types};
ghost use Rattle.store.specs.Rules.{read_buffer};
ghost use Rattle.inspection.specs.Inspections.{inspected};

use crate::survey::{Survey, survey_page};
use fault::Fault;
use page::ClosedCatalogue;
use store::Store;

// Reads the page into the buffer and counts what it holds, or answers why it is refused.
pub fn inspect_page<S: Store>(
    store: &mut S,
    page: u64,
    catalogue: &ClosedCatalogue,
    buffer: &mut [u8],
) -> Result<Survey, Fault>
    ensures value { result ≡ inspected S.Store.layer (types catalogue.now) (S.Store.pages store.old) page buffer.old }
    ensures buffer { buffer.new ≡ read_buffer (S.Store.pages store.old) page buffer.old }
    ensures same { S.Store.pages store.new ≡ S.Store.pages store.old }
{
    let pages = (*store).count();
    (*store).read(page, buffer)?;
    survey_page(buffer, page, pages, catalogue)
}
