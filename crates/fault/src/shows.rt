// A cause in words, and a fault as text: its eight numbers.
ghost use Rattle.std.specs.Prelude.{◌≡◌, Some};
ghost use Rattle.fault.specs.Causes.{wording};
ghost use Rattle.fault.specs.Texts.{place_text, fault_text};

use crate::kinds::{Cause, Fault, Place};
use std::fmt;

impl Cause {
    // The cause in words, for a person.
    pub fn words(self) -> &'static str
        ensures { result.now ≡ wording self }
    {
        match self {
            Cause::BadPlan => "the plan is not allowed",
            Cause::CatalogueFull => "the catalogue has 32 types",
            Cause::FieldCount => "a type has 1 to 62 fields",
            Cause::LinkMask => "the link mask has a bit at or above the size",
            Cause::NoCursor => "no such cursor",
            Cause::EmptyCursor => "the cursor is empty",
            Cause::NoField => "no such field",
            Cause::WrongKind => "the field is of the other kind",
            Cause::AbsentLink => "the link is absent",
            Cause::NoPage => "no such page",
            Cause::CheckDiffers => "the page differs from its check",
            Cause::HeadTooLarge => "the head is above 63",
            Cause::UndeclaredType => "the header is not a declared type",
            Cause::ObjectTooLong => "the object runs past the used cells",
            Cause::BadLink => "the link is neither absent nor a long pointer",
            Cause::NotZero => "a cell after the used ones is not zero",
            Cause::NoAddresses => "addresses run out",
            Cause::NoObject => "no object starts there",
            Cause::PageClosed => "the page is closed to writing",
            Cause::NoRoom => "the page has no room",
            Cause::NoType => "the type is not declared",
            Cause::WrongLength => "a page has 512 bytes",
        }
    }
}

impl fmt::Display for Cause {
    ghost output = { λ c. Some (wording c) };

    fn fmt<W: fmt::Write>(&self, f: &mut fmt::Formatter<W>) -> fmt::Result {
        f.write_str(self.words())
    }
}

impl fmt::Display for Place {
    ghost output = { λ x. Some (place_text x) };

    fn fmt<W: fmt::Write>(&self, f: &mut fmt::Formatter<W>) -> fmt::Result {
        let page = self.page;
        let cell = self.cell;
        let field = self.field;
        write!(f, "{page} {cell} {field}")
    }
}

impl fmt::Display for Fault {
    ghost output = { λ x. Some (fault_text x) };

    fn fmt<W: fmt::Write>(&self, f: &mut fmt::Formatter<W>) -> fmt::Result {
        let cause = self.cause;
        let layer = self.layer;
        let place = self.place;
        let link = self.link;
        write!(f, "{cause} {layer} {place} {link}")
    }
}
