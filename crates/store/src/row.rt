// A row of bytes as pages: each 512 bytes are a page, 1,024 at most.
ghost use Rattle.std.specs.Prelude.{◌≡◌, ◌+◌, ◌≤◌, Bool, length, IfOk};
ghost use Rattle.store.specs.Pages.{is_page, paged};
ghost use Rattle.store.specs.Rules.{read_answer, read_buffer, start_answer};

use crate::{MOST_PAGES, PAGE_BYTES};
use fault::{Cause, Fault, Place};

// The bytes, and the layer that its refusals name.
#[derive(Clone, Copy)]
pub(super) struct Row<'a> {
    pub(super) bytes: &'a [u8],
    pub(super) layer: u32,
}

impl Row<'_> {
    #[tactic(auto, using(crate::specs::Laws::length_cut))]
    pub(super) fn count(&self) -> u64
        ensures { (w : Bool) → result ≡ length (paged w self.now.bytes.now) }
    {
        let whole = (self.bytes.len() / PAGE_BYTES) as u64;
        whole.min(MOST_PAGES)
    }

    pub(super) fn has_page(&self, n: u64) -> bool
        ensures { (w : Bool) → result ≡ is_page (paged w self.now.bytes.now) n }
    {
        (1..=self.count()).contains(&n)
    }

    // The byte at which page n begins, for a buffer of len bytes.
    pub(super) fn start_of(&self, n: u64, len: usize) -> Result<usize, Fault>
        ensures value { (w : Bool) → result ≡ start_answer self.now.layer (paged w self.now.bytes.now) n len }
        ensures inside { IfOk result (λ at. at + 512 ≤ length self.now.bytes.now) }
    {
        if len != PAGE_BYTES {
            return Err(Fault::new(Cause::WrongLength, self.layer, Place::nowhere()));
        }
        if !self.has_page(n) {
            return Err(Fault::new(Cause::NoPage, self.layer, Place::on_page(n)));
        }
        Ok((n as usize - 1) * PAGE_BYTES)
    }

    pub(super) fn read(&self, n: u64, buf: &mut [u8]) -> Result<(), Fault>
        ensures value { (w : Bool) → result ≡ read_answer self.now.layer (paged w self.now.bytes.now) n (length buf.old) }
        ensures buffer { (w : Bool) → buf.new ≡ read_buffer (paged w self.now.bytes.now) n buf.old }
    {
        let start = self.start_of(n, buf.len())?;
        buf.copy_from_slice(&self.bytes[start..start + PAGE_BYTES]);
        Ok(())
    }
}
