// The layer as a store.
ghost use Rattle.std.specs.Prelude.{◌≡◌};
ghost use Rattle.checks.specs.Layer.{checked};
ghost use Rattle.checks.specs.Laws.{checked_lawful};

use crate::sums::{check_page, checked_count, in_layer};
use crate::{CHECKS, Checks};
use fault::{Cause, Fault, Place};
use store::Store;

impl<S: Store> Store for Checks<S> {
    const LAYER: u32 = CHECKS;

    ghost layer = { 8 };

    ghost pages = { λ s. checked (S.Store.pages s.lower) };

    ghost kept = { λ s. S.Store.kept s.lower };

    ghost laws = { checked_lawful S.Store.laws (λ s. s.lower) };

    fn layer_number() -> u32
        ensures { result ≡ 8 }
    {
        CHECKS
    }

    #[tactic(auto, using(crate::specs::Laws::length_checked))]
    fn count(&mut self) -> u64 {
        checked_count(self.lower.count())
    }

    fn is_open(&mut self, n: u64) -> bool {
        let below = self.lower.count();
        if !in_layer(below, n) {
            return false;
        }
        self.ready(n, check_page(below, n)).is_some()
    }

    fn read(&mut self, n: u64, buf: &mut [u8]) -> Result<(), Fault> {
        let at = self.place(n, buf.len())?;
        buf.copy_from_slice(&self.verify(n, at)?);
        Ok(())
    }

    fn write(&mut self, n: u64, buf: &[u8]) -> Result<(), Fault> {
        let at = self.place(n, buf.len())?;
        let closed = Fault::new(Cause::PageClosed, CHECKS, Place::on_page(n));
        let mut sums = self.ready(n, at).ok_or(closed)?;
        self.put(n, at, buf, &mut sums)
    }
}
