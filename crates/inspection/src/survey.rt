// What a page holds, counted over the parts that the reader hands out.
ghost use Rattle.std.specs.Prelude.{◌≡◌, ◌+◌, ◌-◌, ◌^◌, ◌<◌, ◌≤◌, ◌&&◌, IfSome, IfOk, nat_lt};
ghost use Rattle.page.specs.Descriptors.{Good, linked};
ghost use Rattle.page.specs.Form.{head_of, examined};
ghost use Rattle.page.specs.Types.{types, part_of};
ghost use Rattle.inspection.specs.Surveys.{object_type, field_of, present_fields, present_links, counted, surveyed, verdict};

use fault::Fault;
use page::{ClosedCatalogue, Descriptor, Part, Reader, cell};

#[derive(Clone, Copy, Debug, Default, PartialEq, Eq)]
pub struct Survey {
    pub objects: u64,
    // links that are present
    pub links: u64,
    pub free: u64,
}

// The type of the object with these bytes, if it is declared.
pub fn object_type(bytes: &[u8], catalogue: &ClosedCatalogue) -> Option<Descriptor>
    ensures value { result ≡ object_type (types catalogue.now) bytes.now }
    ensures good { IfSome result Good }
{
    catalogue.descriptor(cell(bytes, 0).unwrap_or(0))
}

fn is_present(bytes: &[u8], descriptor: Descriptor, field: u64) -> bool
    requires { field < 64 }
    ensures { result ≡ (linked descriptor field && nat_lt 0 (field_of bytes.now field)) }
{
    descriptor.is_link(field) && cell(bytes, 1 + field).unwrap_or(0) > 0
}

// How many fields are links that are present.
fn count_present(bytes: &[u8], descriptor: Descriptor) -> u64
    requires { descriptor.size ≤ 62 }
    ensures { result ≡ present_fields descriptor bytes.now }
{
    let present = (0..descriptor.size).filter(|field| is_present(bytes, descriptor, *field));
    present.count() as u64
}

// How many present links the object with these bytes has.
pub fn links_in(bytes: &[u8], catalogue: &ClosedCatalogue) -> u64
    ensures value { result ≡ present_links (types catalogue.now) bytes.now }
    ensures few { result ≤ 62 }
{
    object_type(bytes, catalogue).map_or(0, |descriptor| count_present(bytes, descriptor))
}

impl Survey {
    // The counts with one part more.
    fn with(self, part: Part<'_>, catalogue: &ClosedCatalogue) -> Survey
        requires objects_bound { self.objects < 2 ^ 32 }
        requires links_bound { self.links < 2 ^ 32 }
        ensures value { result ≡ counted (types catalogue.now) self (part_of part.entry) }
        ensures objects { result.objects ≤ self.objects + 1 }
        ensures links { result.links ≤ self.links + 62 }
    {
        match part {
            Part::Object { bytes, .. } => Survey {
                objects: self.objects + 1,
                links: self.links + links_in(bytes, catalogue),
                ..self
            },
            Part::Unused { bytes, .. } => Survey {
                free: bytes.len() as u64 / 8,
                ..self
            },
        }
    }
}

// Apart from `survey_page`, since what that says besides follows from these counts.
fn count_parts(
    bytes: &[u8],
    page: u64,
    pages: u64,
    catalogue: &ClosedCatalogue,
) -> Result<Survey, Fault>
    ensures { result ≡ surveyed (types catalogue.now) pages page bytes.now }
{
    let mut reader = Reader::new(bytes, page, pages, catalogue)?;
    let mut survey = Survey::default();
    while let Some(part) = reader.step() {
        survey = survey.with(part?, catalogue);
    }
    Ok(survey)
}

// Counts what the page holds, or answers its first fault.
pub fn survey_page(
    bytes: &[u8],
    page: u64,
    pages: u64,
    catalogue: &ClosedCatalogue,
) -> Result<Survey, Fault>
    ensures value { result ≡ surveyed (types catalogue.now) pages page bytes.now }
    ensures lawful { verdict result ≡ examined pages page bytes.now (types catalogue.now) }
    ensures free { IfOk result (λ s. s.free ≡ 63 - head_of bytes.now) }
{
    count_parts(bytes, page, pages, catalogue)
}
