// A store that is lent is a store.
ghost use Rattle.std.specs.Prelude.{[]};
ghost use Rattle.store.specs.Pages.{loan, both};
ghost use Rattle.store.specs.Laws.{seen_lawful};

use crate::Store;
use fault::Fault;

impl<'b, S: Store> Store for &'b mut S {
    const LAYER: u32 = S::LAYER;

    ghost layer = { S.Store.layer };

    ghost pages = { λ s. S.Store.pages s.now };

    ghost kept = { λ s. both (loan s.ghost_name []) (S.Store.kept s.now) };

    ghost laws = { seen_lawful S.Store.laws (λ x. x.now) };

    fn layer_number() -> u32 {
        S::layer_number()
    }

    fn count(&mut self) -> u64 {
        (**self).count()
    }

    fn is_open(&mut self, n: u64) -> bool {
        (**self).is_open(n)
    }

    fn read(&mut self, n: u64, buf: &mut [u8]) -> Result<(), Fault> {
        (**self).read(n, buf)
    }

    fn write(&mut self, n: u64, buf: &[u8]) -> Result<(), Fault> {
        (**self).write(n, buf)
    }
}
