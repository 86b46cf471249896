// A reader that hands out the parts of a page, borrowed from the page's own bytes.
ghost use Rattle.std.specs.Prelude.{◌≡◌, ◌+◌, ◌≤◌};
ghost use Rattle.page.specs.Form.{head_of};

mod steps;

use crate::form::Page;
use fault::Fault;

// An object from its header on, or last the cells that no object uses; each with its first cell.
#[derive(Clone, Copy, Debug, PartialEq, Eq)]
pub enum Part<'a> {
    Object { cell: u64, bytes: &'a [u8] },
    Unused { cell: u64, bytes: &'a [u8] },
}

#[derive(Clone, Copy)]
enum Stage {
    Reading,
    Done,
    Refused(Fault),
}

#[derive(Clone, Copy)]
pub struct Reader<'a, 'k> {
    page: Page<'a, 'k>,
    used: u64,
    cell: u64,
    stage: Stage,
    ghost head: { used ≡ head_of page.bytes.now },
    ghost within: { cell ≤ used + 1 },
}
