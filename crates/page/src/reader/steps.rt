ghost use Rattle.std.specs.Prelude.{◌≡◌, Some, IfOk};
ghost use Rattle.page.specs.Form.{examined};
ghost use Rattle.page.specs.Parts.{reader_of, next_part, after_next, Faithful};
ghost use Rattle.page.specs.Types.{types, remaining, remaining_of, seen, seen_part};
ghost use Rattle.page.specs.declared.reader.Stage.TheVariants.{Reading};

use crate::catalogue::ClosedCatalogue;
use crate::form::{LAYER, Page};
use crate::reader::{Part, Reader, Stage};
use fault::{Cause, Fault, Place};

impl<'a, 'k> Reader<'a, 'k> {
    // Reads page `page` of a store of `pages` pages.
    #[tactic(auto, using(crate::proofs::Whole::faithful_as))]
    pub fn new(
        bytes: &'a [u8],
        page: u64,
        pages: u64,
        catalogue: &'k ClosedCatalogue,
    ) -> Result<Reader<'a, 'k>, Fault>
        ensures parts { remaining_of result ≡ reader_of (types catalogue.now) pages page bytes.now }
        ensures faithful { Faithful (remaining_of result) (examined pages page bytes.now (types catalogue.now)) bytes.now }
    {
        if bytes.len() != 512 {
            return Err(Fault::new(Cause::WrongLength, LAYER, Place::nowhere()));
        }
        let page = Page {
            bytes,
            number: page,
            pages,
            catalogue,
        };
        Ok(Reader {
            page,
            used: page.cell_at(0),
            cell: 1,
            stage: Stage::Reading,
        })
    }

    // The next part; none for ever after the last, and a fault again for ever, so a reader is no iterator that ends. A call
    // for each part would cost as much as the part.
    #[inline]
    pub fn step(&mut self) -> Option<Result<Part<'a>, Fault>>
        ensures part { seen result ≡ next_part (remaining self.old) }
        ensures after { remaining self.new ≡ after_next (remaining self.old) }
    {
        match self.stage {
            Stage::Done => None,
            Stage::Refused(fault) => Some(Err(fault)),
            Stage::Reading => {
                let part = self.advance();
                if let Err(fault) = part {
                    self.stage = Stage::Refused(fault);
                }
                Some(part)
            }
        }
    }

    // The part at the reader's cell, past which the reader then stands.
    fn advance(&mut self) -> Result<Part<'a>, Fault>
        requires { self.old.stage ≡ Reading }
        ensures part { Some (seen_part result) ≡ next_part (remaining self.old) }
        ensures after { IfOk result (λ _. remaining self.new ≡ after_next (remaining self.old)) }
    {
        if self.used > 63 {
            return Err(self.page.fault(Cause::HeadTooLarge, 0));
        }
        let bytes = self.page.bytes;
        let cell = self.cell;
        let from = 8 * cell as usize;
        if cell > self.used {
            self.page.unused_fault(self.used)?;
            self.stage = Stage::Done;
            let bytes = &bytes[from..];
            return Ok(Part::Unused { cell, bytes });
        }
        let next = cell + 1 + self.page.object_at(cell)?;
        self.cell = next;
        let bytes = &bytes[from..8 * next as usize];
        Ok(Part::Object { cell, bytes })
    }
}
