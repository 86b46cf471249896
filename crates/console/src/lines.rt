// The lines of an inspection that a script can read.
ghost use Rattle.std.specs.Prelude.{Some};
ghost use Rattle.console.specs.Lines.{page_text, total_text};

use fault::Fault;
use inspection::Survey;
use std::fmt;

// The verdict on a page.
#[derive(Clone, Copy)]
pub(crate) struct PageLine {
    pub(crate) page: u64,
    pub(crate) verdict: Result<Survey, Fault>,
}

impl fmt::Display for PageLine {
    ghost output = { λ x. Some (page_text x) };

    fn fmt<W: fmt::Write>(&self, f: &mut fmt::Formatter<W>) -> fmt::Result {
        let page = self.page;
        match self.verdict {
            Ok(survey) => {
                let objects = survey.objects;
                let free = survey.free;
                write!(f, "page {page} lawful {objects} objects {free} free")
            }
            Err(fault) => write!(f, "page {page} refused {fault}"),
        }
    }
}

// The sums over all pages.
#[derive(Clone, Copy, Debug, Default, PartialEq, Eq)]
pub(crate) struct Totals {
    pub(crate) pages: u64,
    pub(crate) lawful: u64,
    pub(crate) objects: u64,
    pub(crate) links: u64,
}

impl fmt::Display for Totals {
    ghost output = { λ x. Some (total_text x) };

    fn fmt<W: fmt::Write>(&self, f: &mut fmt::Formatter<W>) -> fmt::Result {
        let pages = self.pages;
        let lawful = self.lawful;
        let objects = self.objects;
        let links = self.links;
        write!(
            f,
            "total {pages} pages {lawful} lawful {objects} objects {links} links"
        )
    }
}
