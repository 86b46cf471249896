ghost use Rattle.std.specs.Prelude.{◌≡◌, false};
ghost use Rattle.store.specs.Pages.{paged, past, shared};
ghost use Rattle.store.specs.Laws.{paged_lawful};

use crate::Store;
use crate::row::Row;
use fault::{Cause, Fault, Place};

// A store over bytes that stay as they are. Every page can be read and none written.
#[derive(Drop)]
pub struct Frozen<'a> {
    bytes: &'a [u8],
}

impl<'a> Frozen<'a> {
    pub fn new(bytes: &'a [u8]) -> Frozen<'a>
        ensures { result.bytes ≡ bytes.entry }
    {
        Frozen { bytes }
    }

    fn row(&self) -> Row<'a>
        ensures bytes { result.bytes ≡ self.now.bytes }
        ensures layer { result.layer ≡ 6 }
    {
        Row {
            bytes: self.bytes,
            layer: Self::LAYER,
        }
    }
}

impl<'a> Store for Frozen<'a> {
    const LAYER: u32 = 6;

    ghost layer = { 6 };

    ghost pages = { λ s. paged false s.bytes.now };

    ghost kept = { λ s. shared s.bytes.ref_ptr.0 s.bytes.ref_ptr.1 (past s.bytes.now) };

    ghost laws = { paged_lawful false (λ s. s.bytes.now) };

    fn layer_number() -> u32
        ensures { result ≡ 6 }
    {
        Self::LAYER
    }

    fn count(&mut self) -> u64 {
        self.row().count()
    }

    #[tactic(auto, using(crate::proofs::Cuts::open_frozen))]
    fn is_open(&mut self, _n: u64) -> bool {
        false
    }

    fn read(&mut self, n: u64, buf: &mut [u8]) -> Result<(), Fault> {
        self.row().read(n, buf)
    }

    fn write(&mut self, n: u64, buf: &[u8]) -> Result<(), Fault> {
        self.row().start_of(n, buf.len())?;
        Err(Fault::new(Cause::PageClosed, Self::LAYER, Place::on_page(n)))
    }
}
