// How many addresses and frames a service has.
ghost use Rattle.std.specs.Prelude.{◌≤◌};

pub mod checked;

// 1 to 256 addresses, 1 to 16 frames.
#[derive(Clone, Copy)]
pub struct Plan {
    pub(crate) addresses: u16,
    pub(crate) frames: usize,
    ghost addressed: { (1 ≤ addresses) × (addresses ≤ 256) },
    ghost framed: { (1 ≤ frames) × (frames ≤ 16) },
}
