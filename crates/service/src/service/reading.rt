// Calls that read a field of the object on which a cursor stands.
ghost use Rattle.std.specs.Prelude.{◌≡◌};
ghost use Rattle.service.specs.Calls.{number, names, link_of, Did};
ghost use Rattle.service.specs.Serving.{owners};

use crate::service::Service;
use crate::service::reach::{check_cursor, named};
use fault::Fault;
use graph::Call;
use policy::Policy;
use store::Store;

impl<S: Store, V: Policy> Service<S, V> {
    // The number in a field.
    pub fn read(&mut self, cursor: u64, field: u64) -> Result<u64, Fault>
        ensures { Did self.old self.new (Call.Read cursor field) (number result) }
    {
        check_cursor(cursor)?;
        let spot = self.spot(cursor, field, false)?;
        Ok(self.pool.stored(spot.frame, spot.at.cell, field))
    }

    // The page and cell that a link names, or none where it is absent.
    pub fn target(&mut self, cursor: u64, field: u64) -> Result<Option<(u64, u64)>, Fault>
        ensures { Did self.old self.new (Call.Target cursor field) (names result) }
    {
        check_cursor(cursor)?;
        let spot = self.spot(cursor, field, true)?;
        let pointer = self.pool.stored(spot.frame, spot.at.cell, field);
        Ok(named(pointer).map(|at| (at.page, at.cell)))
    }

    // The cell of a link as it stands in the frame: 0, or an address.
    pub fn glance(&mut self, cursor: u64, field: u64) -> Result<u64, Fault>
        ensures { Did self.old self.new (Call.Glance cursor field) (number result) }
    {
        check_cursor(cursor)?;
        let spot = self.spot(cursor, field, true)?;
        Ok(self.pool.field(spot.frame, spot.at.cell, field))
    }

    // The page that a slot belongs to, if any.
    pub fn slot(&self, slot: u64) -> Option<u64>
        ensures { result ≡ owners self.now slot }
    {
        self.pool.owner(slot)
    }
}
