// What a refusal says: its cause, the layer that refused, and the places that it names.
#![tactic(auto)]

ghost use Rattle.std.specs.Prelude.{◌≡◌};
ghost use Rattle.fault.specs.Faults.{nowhere, on_page, on_cell, on_field, fault, mark, moved, via};

mod kinds;
mod numbers;
mod shows;

pub use kinds::{Cause, Fault, Place};
pub use numbers::NoCause;

impl Place {
    // No page, no cell, no field.
    pub fn nowhere() -> Place
        ensures { result ≡ nowhere }
    {
        Place::on_page(0)
    }

    pub fn on_page(page: u64) -> Place
        ensures { result ≡ on_page page }
    {
        Place::on_cell(page, 64)
    }

    pub fn on_cell(page: u64, cell: u64) -> Place
        ensures { result ≡ on_cell page cell }
    {
        Place::on_field(page, cell, 63)
    }

    pub fn on_field(page: u64, cell: u64, field: u64) -> Place
        ensures { result ≡ on_field page cell field }
    {
        Place { page, cell, field }
    }
}

impl Fault {
    // A refusal at a place that no link led to.
    pub fn new(cause: Cause, layer: u32, place: Place) -> Fault
        ensures { result ≡ fault cause layer place }
    {
        Fault {
            cause: u32::from(cause),
            layer,
            place,
            link: Place::nowhere(),
        }
    }

    // The refusal of an unreadable page, with the cause and layer of its mark.
    pub fn marked(cause: u32, layer: u32, page: u64) -> Fault
        ensures { result ≡ mark cause layer page }
    {
        Fault {
            cause,
            layer,
            place: Place::on_page(page),
            link: Place::nowhere(),
        }
    }

    // The same refusal, told of another page.
    pub fn on_page(self, page: u64) -> Fault
        ensures { result ≡ moved page self }
    {
        Fault {
            place: Place { page, ..self.place },
            ..self
        }
    }

    // The same refusal, come there by that link.
    pub fn via(self, link: Place) -> Fault
        ensures { result ≡ via link self }
    {
        Fault { link, ..self }
    }
}
