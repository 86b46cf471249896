// The command `inspect`: a verdict for each page, the objects of the lawful ones, and the totals.
use crate::lines::{PageLine, Totals};
use crate::names::TypeNames;
use fault::{Cause, Fault};
use inspection::{Survey, inspect_page, object_type};
use page::{ClosedCatalogue, Descriptor, Part, Reader, cell, to_link};
use std::io;
use std::io::Write;
use store::Store;

// The catalogue, and the names of its types from 1 on: no names for the types of a file.
#[derive(Clone, Copy)]
pub(crate) struct Types<'t> {
    pub(crate) catalogue: ClosedCatalogue,
    pub(crate) names: &'t [TypeNames<'t>],
}

impl<'t> Types<'t> {
    fn names_of(&self, kind: u64) -> Option<&'t TypeNames<'t>> {
        self.names.get((kind as usize).checked_sub(1)?)
    }
}

impl Totals {
    fn with(self, verdict: Result<Survey, Fault>) -> Totals {
        let pages = self.pages.saturating_add(1);
        verdict.map_or(
            Totals { pages, ..self },
            |survey| Totals {
                pages,
                lawful: self.lawful.saturating_add(1),
                objects: self.objects.saturating_add(survey.objects),
                links: self.links.saturating_add(survey.links),
            },
        )
    }
}

fn write_number<W: Write>(out: &mut W, number: u64, link: bool, pages: u64) -> io::Result<()> {
    if !link {
        return write!(out, " {number}");
    }
    match to_link(number, pages) {
        Ok(Some(at)) => write!(out, " {}:{}", at.page, at.cell),
        _ => write!(out, " absent"),
    }
}

fn write_label<W: Write>(out: &mut W, field: u64, names: Option<&TypeNames<'_>>) -> io::Result<()> {
    match names.and_then(|names| names.field(field)) {
        Some(name) => write!(out, " {name}"),
        None => write!(out, " field {field}"),
    }
}

fn write_fields<W: Write>(
    out: &mut W,
    bytes: &[u8],
    descriptor: Descriptor,
    names: Option<&TypeNames<'_>>,
    pages: u64,
) -> io::Result<()> {
    for field in 0..descriptor.size {
        write!(out, "{}", if field == 0 { ":" } else { "," })?;
        write_label(out, field, names)?;
        let number = cell(bytes, field.saturating_add(1)).unwrap_or(0);
        write_number(out, number, descriptor.is_link(field), pages)?;
    }
    writeln!(out)
}

fn write_object<W: Write>(
    out: &mut W,
    at: u64,
    bytes: &[u8],
    types: &Types<'_>,
    pages: u64,
) -> io::Result<()> {
    let kind = cell(bytes, 0).unwrap_or(0);
    let Some(descriptor) = object_type(bytes, &types.catalogue) else {
        return Ok(());
    };
    write!(out, "  cell {at} type {kind}")?;
    let names = types.names_of(kind);
    if let Some(names) = names {
        write!(out, " {}", names.name)?;
    }
    write_fields(out, bytes, descriptor, names, pages)
}

fn write_objects<W: Write>(
    out: &mut W,
    bytes: &[u8],
    page: u64,
    pages: u64,
    types: &Types<'_>,
) -> io::Result<()> {
    let Ok(mut reader) = Reader::new(bytes, page, pages, &types.catalogue) else {
        return Ok(());
    };
    while let Some(Ok(Part::Object { cell, bytes })) = reader.step() {
        write_object(out, cell, bytes, types, pages)?;
    }
    Ok(())
}

// The fault in words, where it is one of ours.
fn write_remark<W: Write>(out: &mut W, fault: Fault) -> io::Result<()> {
    match Cause::try_from(fault.cause) {
        Ok(cause) => writeln!(out, "  # {cause}"),
        Err(_) => writeln!(out),
    }
}

// Writes what there is to say of a page.
fn write_page<S: Store, W: Write>(
    store: &mut S,
    page: u64,
    pages: u64,
    types: &Types<'_>,
    out: &mut W,
) -> io::Result<Result<Survey, Fault>> {
    let mut bytes = [0u8; 512];
    let verdict = inspect_page(store, page, &types.catalogue, &mut bytes);
    let line = PageLine { page, verdict };
    write!(out, "{line}")?;
    match verdict {
        Err(fault) => write_remark(out, fault)?,
        Ok(_) => {
            writeln!(out)?;
            write_objects(out, &bytes, page, pages, types)?;
        }
    }
    Ok(verdict)
}

// Writes every page, and answers the totals.
pub(crate) fn inspect_store<S: Store, W: Write>(
    store: &mut S,
    types: &Types<'_>,
    out: &mut W,
) -> io::Result<Totals> {
    let mut totals = Totals::default();
    let pages = (*store).count();
    for page in 1..=pages {
        let verdict = write_page(store, page, pages, types, out)?;
        totals = totals.with(verdict);
    }
    Ok(totals)
}
