ghost use Rattle.std.specs.Prelude.{◌≡◌, length};
ghost use Rattle.page.specs.Types.{types};
ghost use Rattle.graph.specs.Graphs.{on_cursor};
ghost use Rattle.pool.specs.Needs.{Covers};
ghost use Rattle.service.specs.Graphing.{graph_at, Standing};

mod reach;
mod reading;
mod start;
mod walking;

use graph::Position;
use policy::Policy;
use pool::Pool;
use store::Store;

// A pool of frames over a store, and sixteen cursors, each empty or on an object whose page has a slot.
#[derive(Drop)]
pub struct Service<S: Store, V: Policy> {
    pool: Pool<S, V>,
    cursors: [Option<Position>; 16],
    ghost sixteen: { length cursors ≡ 16 },
    ghost stand: { Standing (types pool.catalogue) (graph_at pool cursors) },
    ghost covered: { Covers pool.table.slot_of (on_cursor cursors) },
}
