// The whole program over what it is given, so that a test can run it: `main` only passes the process's own.
use crate::catalogue::{BadLine, declare_lines};
use crate::command::{Command, Inspect, Misuse, StoreKind, read_command};
use crate::files::{is_symlink, replace};
use crate::inspect::{Types, inspect_store};
use crate::lines::Totals;
use crate::names::STUDIO;
use checks::Checks;
use page::{DeclaringCatalogue, studio_catalogue};
use split::Split;
use std::io::{BufWriter, Write};
use std::rt::Files;
use std::{fmt, fs, io};
use store::{Frozen, Image, Store};

const HELP: &str = "balunsep: pages of a drawing, inspected

  balunsep inspect [--catalogue FILE] [--store STORE] PAGES
  balunsep seal PAGES
  balunsep --help

PAGES is a file of pages of 512 bytes each, the first of them page 1. At most
1,024 pages are taken; what stands past them is said and passed over.

inspect prints for each page one line,
  page N lawful OBJECTS objects FREE free
where FREE is 63 less the cells that the objects use, or
  page N refused CAUSE LAYER PAGE CELL FIELD PAGE CELL FIELD  # WORDS
with the eight numbers of the page's first fault: its cause, the layer that
refused, the place, and the link that led there (page 0, cell 64 and field 63
mean none), and the cause in words. Under a lawful page stand its objects:
  cell CELL type TYPE: field 0 NUMBER, field 1 PAGE:CELL, field 2 absent
with names where the types are the studio's. The last line is
  total PAGES pages LAWFUL lawful OBJECTS objects LINKS links
where LINKS counts the links that are not absent, on lawful pages.

--catalogue FILE reads the types from FILE in place of the studio's five: a
line 'SIZE MASK' in decimal for each type, numbered from 1. Bit f of MASK says
that field f, counted from 0, is a link.

--store STORE says how the pages are seen:
  image     the file's pages, as they are; this is the default
  frozen    the same, closed to writing
  checks    through the checks layer: of Q pages the last Q/65, rounded up,
            hold the checks of the others
  split:K   as two images, the first K pages in one and the rest in the other

seal writes the checks of all pages of a file that is laid out for the checks
layer, and prints how many cells it changed. The file is replaced whole.

The exit status is 0 when the work was done, whatever an inspection found, and
1 when a file can't be read or written or the command line is wrong.";

// How the program ends where the streams hold: with status 0, or with 1 after it said why. No Result: its error would be
// empty, beside the error of a stream.
#[derive(Debug, Clone, Copy, PartialEq, Eq)]
pub enum Ending {
    Done,
    Failed,
}

// Why a command did not do its work, as it is said after the program's name.
#[derive(Drop)]
enum Failure<'a> {
    Misuse(Misuse<'a>),
    Unread { path: &'a str, why: io::Error },
    Unwritten { path: &'a str, why: io::Error },
    Types { path: &'a str, why: BadLine<'a> },
    Symlink(&'a str),
}

impl fmt::Display for Failure<'_> {
    fn fmt<W: fmt::Write>(&self, f: &mut fmt::Formatter<W>) -> fmt::Result {
        match self {
            Failure::Misuse(misuse) => write!(f, "{misuse}"),
            Failure::Unread { path, why } => write!(f, "cannot read {path}: {why}"),
            Failure::Unwritten { path, why } => write!(f, "cannot write {path}: {why}"),
            Failure::Types { path, why } => write!(f, "{path}: {why}"),
            Failure::Symlink(path) => {
                write!(f, "{path} is a symbolic link; name the file itself")
            }
        }
    }
}

// What stops a command: a failure that is to be said, or a stream that does not take what is said.
#[derive(Drop)]
enum Stop<'a> {
    Failure(Failure<'a>),
    Stream(io::Error),
}

impl<'a> From<Failure<'a>> for Stop<'a> {
    fn from(failure: Failure<'a>) -> Self {
        Stop::Failure(failure)
    }
}

impl From<io::Error> for Stop<'_> {
    fn from(why: io::Error) -> Self {
        Stop::Stream(why)
    }
}

fn read_file<'a, R: Files + AllocGlobal>(rt: &R, path: &'a str) -> Result<Vec<u8>, Failure<'a>> {
    fs::read(rt, path).map_err(|why| Failure::Unread { path, why })
}

// The types of a file. Its text goes before the pages are read. Only where a line is bad does it stay with the caller, as
// the line is said by the text's own words; it is looked for again there.
fn file_types<'a, R: Files + AllocGlobal>(
    rt: &R,
    path: &'a str,
    text: &'a mut String,
) -> Result<Types<'static>, Failure<'a>> {
    let read = fs::read_to_string(rt, path).map_err(|why| Failure::Unread { path, why })?;
    let mut catalogue = DeclaringCatalogue::new();
    if declare_lines(&mut catalogue, read.as_str()).is_err() {
        *text = read;
        catalogue = DeclaringCatalogue::new();
        declare_lines(&mut catalogue, text.as_str()).map_err(|why| Failure::Types { path, why })?;
    }
    Ok(Types {
        catalogue: catalogue.close(),
        names: &[],
    })
}

// What stands in the file past its last page.
fn write_past<W: Write>(out: &mut W, length: usize) -> io::Result<()> {
    let pages = length / 512;
    let bytes = length % 512;
    if pages > 1024 {
        let more = pages - 1024;
        writeln!(out, "passed over: {more} pages past page 1024")?;
    }
    if bytes > 0 {
        writeln!(out, "passed over: {bytes} bytes past the last page")?;
    }
    Ok(())
}

fn inspect_split<W: Write>(
    bytes: &mut [u8],
    first: u64,
    types: &Types<'_>,
    out: &mut W,
) -> io::Result<Totals> {
    let pages = bytes.len() / 512;
    let first = first.min(pages as u64) as usize;
    let (front, back) = bytes.split_at_mut(first * 512);
    let mut store = Split::new(Image::new(front), Image::new(back));
    inspect_store(&mut store, types, out)
}

// Each kind of store is a type of its own, which no closure and no `dyn Store` can stand for: each is inspected in its arm.
fn inspect_bytes<W: Write>(
    bytes: &mut [u8],
    kind: StoreKind,
    types: &Types<'_>,
    out: &mut W,
) -> io::Result<Totals> {
    match kind {
        StoreKind::Image => {
            let mut store = Image::new(bytes);
            inspect_store(&mut store, types, out)
        }
        StoreKind::Frozen => {
            let mut store = Frozen::new(bytes);
            inspect_store(&mut store, types, out)
        }
        StoreKind::Checks => {
            let mut store = Checks::new(Image::new(bytes));
            inspect_store(&mut store, types, out)
        }
        StoreKind::Split(first) => inspect_split(bytes, first, types, out),
    }
}

fn inspect<'a, R: Files + AllocGlobal, O: Write + Drop>(
    rt: &R,
    asked: Inspect<'a>,
    text: &'a mut String,
    out: &mut BufWriter<O>,
) -> Result<(), Stop<'a>> {
    let types = match asked.catalogue {
        None => Types {
            catalogue: studio_catalogue(),
            names: STUDIO,
        },
        Some(path) => file_types(rt, path, text)?,
    };
    let mut bytes = read_file(rt, asked.pages)?;
    let totals = inspect_bytes(bytes.as_mut_slice(), asked.store, &types, out)?;
    write_past(out, bytes.len())?;
    writeln!(out, "{totals}")?;
    Ok(())
}

// Writes the checks of a file that is laid out for the checks layer.
fn seal<'a, R: Files + AllocGlobal, O: Write + Drop>(
    rt: &R,
    path: &'a str,
    out: &mut BufWriter<O>,
) -> Result<(), Stop<'a>> {
    let mut bytes = read_file(rt, path)?;
    let changed = Checks::new(Image::new(bytes.as_mut_slice())).seal();
    if changed > 0 {
        if is_symlink(rt, path) {
            return Err(Failure::Symlink(path).into());
        }
        replace(rt, rt.alloc(), path, bytes.as_slice()).map_err(|why| Failure::Unwritten {
            path,
            why,
        })?;
    }
    writeln!(out, "changed {changed} cells")?;
    Ok(())
}

fn run<'a, R: Files + AllocGlobal, O: Write + Drop>(
    rt: &R,
    words: &'a [String],
    text: &'a mut String,
    out: &mut BufWriter<O>,
) -> Result<(), Stop<'a>> {
    match read_command(words).map_err(Failure::Misuse)? {
        Command::Help => writeln!(out, "{HELP}")?,
        Command::Inspect(asked) => inspect(rt, asked, text, out)?,
        Command::Seal(path) => seal(rt, path, out)?,
    }
    out.flush()?;
    Ok(())
}

// Runs the program on the words after its name.
pub fn start<R: Files + AllocGlobal, O: Write + Drop, E: Write>(
    rt: &R,
    words: &[String],
    out: &mut BufWriter<O>,
    err: &mut E,
) -> io::Result<Ending> {
    let mut text = String::new(rt.alloc());
    match run(rt, words, &mut text, out) {
        Ok(()) => Ok(Ending::Done),
        Err(Stop::Stream(why)) => Err(why),
        Err(Stop::Failure(failure)) => {
            writeln!(err, "balunsep: {failure}")?;
            Ok(Ending::Failed)
        }
    }
}
