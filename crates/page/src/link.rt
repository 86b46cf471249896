// Links in a stored page: absent, or a long pointer.
ghost use Rattle.std.specs.Prelude.{◌≡◌};
ghost use Rattle.page.specs.Links.{pointed, link_of};

use fault::Cause;

// A page and a cell: what a long pointer names.
#[derive(Clone, Copy, Debug, PartialEq, Eq)]
pub struct Position {
    pub page: u64,
    pub cell: u64,
}

impl From<u64> for Position {
    ghost from_gives = { λ pointer at. at ≡ pointed pointer };

    fn from(pointer: u64) -> Position {
        Position {
            page: pointer / 64,
            cell: pointer % 64,
        }
    }
}

// What the number names as a link, if anything, where there are `pages` pages; refused if it is neither absent nor a long
// pointer.
pub fn to_link(number: u64, pages: u64) -> Result<Option<Position>, Cause>
    ensures { result ≡ link_of pages number }
{
    if number == 0 {
        return Ok(None);
    }
    let at = Position::from(number);
    if at.page == 0 || at.page > pages || at.cell == 0 {
        return Err(Cause::BadLink);
    }
    Ok(Some(at))
}
