ghost use Rattle.std.specs.Prelude.{◌≡◌, true};
ghost use Rattle.store.specs.Pages.{paged, past, loan};
ghost use Rattle.store.specs.Laws.{paged_lawful};

use crate::row::Row;
use crate::{PAGE_BYTES, Store};
use fault::Fault;

// A store over lent bytes. Every page can be read and written; bytes past the last page stay as they are.
#[derive(Drop)]
pub struct Image<'a> {
    bytes: &'a mut [u8],
}

impl<'a> Image<'a> {
    pub fn new(bytes: &'a mut [u8]) -> Image<'a>
        ensures { result.bytes ≡ bytes.entry }
    {
        Image { bytes }
    }

    // The bytes as they stand.
    pub fn bytes(&self) -> &[u8]
        ensures { result.now ≡ self.now.bytes.now }
    {
        &self.bytes[..]
    }

    fn row(&self) -> Row<'_>
        ensures bytes { result.bytes.now ≡ self.now.bytes.now }
        ensures layer { result.layer ≡ 5 }
    {
        Row {
            bytes: self.bytes(),
            layer: Self::LAYER,
        }
    }
}

impl<'a> Store for Image<'a> {
    const LAYER: u32 = 5;

    ghost layer = { 5 };

    ghost pages = { λ s. paged true s.bytes.now };

    ghost kept = { λ s. loan s.bytes.ghost_name (past s.bytes.now) };

    ghost laws = { paged_lawful true (λ s. s.bytes.now) };

    fn layer_number() -> u32
        ensures { result ≡ 5 }
    {
        Self::LAYER
    }

    fn count(&mut self) -> u64 {
        self.row().count()
    }

    #[tactic(auto, using(crate::proofs::Cuts::open_image))]
    fn is_open(&mut self, n: u64) -> bool {
        self.row().has_page(n)
    }

    fn read(&mut self, n: u64, buf: &mut [u8]) -> Result<(), Fault> {
        self.row().read(n, buf)
    }

    fn write(&mut self, n: u64, buf: &[u8]) -> Result<(), Fault> {
        let start = self.row().start_of(n, buf.len())?;
        self.bytes[start..start + PAGE_BYTES].copy_from_slice(buf);
        Ok(())
    }
}
