// A catalogue from a file: a line `SIZE MASK` for each type.
use crate::numbers::{Mistake, numbers};
use fault::{Cause, Fault};
use page::DeclaringCatalogue;
use std::fmt;

// What is wrong with a catalogue file, and on which line.
#[derive(Clone, Copy, Debug, PartialEq, Eq)]
pub struct BadLine<'a> {
    line: u64,
    why: Why<'a>,
}

#[derive(Clone, Copy, Debug, PartialEq, Eq)]
enum Why<'a> {
    Numbers(Mistake<'a>),
    Refused(Fault),
}

impl fmt::Display for BadLine<'_> {
    fn fmt<W: fmt::Write>(&self, f: &mut fmt::Formatter<W>) -> fmt::Result {
        let line = self.line;
        match self.why {
            Why::Numbers(mistake) => write!(f, "line {line}: {mistake}"),
            Why::Refused(fault) => {
                let number = fault.cause;
                match Cause::try_from(number) {
                    Ok(cause) => write!(f, "line {line}: refused by {number}, {cause}"),
                    Err(_) => write!(
                        f,
                        "line {line}: refused by {number}, a cause of another store"
                    ),
                }
            }
        }
    }
}

impl<'a> From<Mistake<'a>> for Why<'a> {
    fn from(mistake: Mistake<'a>) -> Self {
        Why::Numbers(mistake)
    }
}

impl From<Fault> for Why<'_> {
    fn from(fault: Fault) -> Self {
        Why::Refused(fault)
    }
}

fn declare_line<'a>(catalogue: &mut DeclaringCatalogue, text: &'a str) -> Result<(), Why<'a>> {
    let [size, mask] = numbers::<2>(text.split_whitespace())?;
    catalogue.declare(size, mask)?;
    Ok(())
}

// Declares the types of the file; blank lines are passed over.
pub(crate) fn declare_lines<'a>(
    catalogue: &mut DeclaringCatalogue,
    text: &'a str,
) -> Result<(), BadLine<'a>> {
    for (line, text) in (1u64..).zip(text.lines()) {
        if !text.trim().is_empty() {
            declare_line(catalogue, text).map_err(|why| BadLine { line, why })?;
        }
    }
    Ok(())
}
