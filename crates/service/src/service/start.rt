// A service opens on a store with all cursors empty.
ghost use Rattle.std.specs.Prelude.{◌≡◌, replicate, None};
ghost use Rattle.page.specs.Types.{types};
ghost use Rattle.graph.specs.Graphs.{opened};
ghost use Rattle.service.specs.Serving.{graph_of, Holding};

use crate::plan::Plan;
use crate::service::Service;
use page::ClosedCatalogue;
use policy::Policy;
use pool::Pool;
use store::Store;

impl<S: Store, V: Policy> Service<S, V> {
    // Opens on a store. It allocates nothing and can't be refused.
    pub fn new(plan: Plan, catalogue: ClosedCatalogue, store: S, policy: V) -> Self
        ensures graph { graph_of result ≡ opened (S.Store.pages store) }
        ensures holding { Holding result }
        ensures catalogue { result.pool.catalogue ≡ catalogue }
        ensures addresses { result.pool.table.slots ≡ plan.addresses }
        ensures frames { result.pool.count ≡ plan.frames }
        ensures empty { result.pool.frames ≡ replicate 16 None }
        ensures free { result.pool.table.slot_of ≡ replicate 1025 0 }
    {
        Service {
            pool: Pool::new(store, policy, catalogue, plan.addresses, plan.frames),
            cursors: [None; 16],
        }
    }
}
