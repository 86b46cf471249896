// The command line.
use crate::numbers::number;
use std::fmt;

// Which store the pages are seen through.
#[derive(Clone, Copy, Debug, PartialEq, Eq)]
pub(crate) enum StoreKind {
    Image,
    Frozen,
    Checks,
    // the first so many pages in one image, the rest in another
    Split(u64),
}

#[derive(Clone, Copy, Debug, PartialEq, Eq)]
pub(crate) struct Inspect<'a> {
    pub(crate) pages: &'a str,
    // a catalogue other than the studio's
    pub(crate) catalogue: Option<&'a str>,
    pub(crate) store: StoreKind,
}

#[derive(Clone, Copy, Debug, PartialEq, Eq)]
pub(crate) enum Command<'a> {
    Help,
    Inspect(Inspect<'a>),
    Seal(&'a str),
}

// What is wrong with a command line.
#[derive(Clone, Copy, Debug, PartialEq, Eq)]
pub(crate) enum Misuse<'a> {
    NoCommand,
    UnknownCommand(&'a str),
    UnknownOption(&'a str),
    NoValue(&'a str),
    BadValue { option: &'a str, value: &'a str },
    Twice(&'a str),
    NoPages,
    Extra(&'a str),
}

impl fmt::Display for Misuse<'_> {
    fn fmt<W: fmt::Write>(&self, f: &mut fmt::Formatter<W>) -> fmt::Result {
        match *self {
            Misuse::NoCommand => write!(f, "no command given; try 'balunsep --help'"),
            Misuse::UnknownCommand(word) => {
                write!(f, "unknown command '{word}'; try 'balunsep --help'")
            }
            Misuse::UnknownOption(word) => {
                write!(f, "unknown option '{word}'; try 'balunsep --help'")
            }
            Misuse::NoValue(option) => write!(f, "option '{option}' wants a value"),
            Misuse::BadValue { option, value } => {
                write!(f, "option '{option}' does not take '{value}'")
            }
            Misuse::Twice(option) => write!(f, "option '{option}' is given twice"),
            Misuse::NoPages => write!(f, "no page file given; try 'balunsep --help'"),
            Misuse::Extra(word) => write!(f, "unexpected argument '{word}'"),
        }
    }
}

// The value names no store.
#[derive(Clone, Copy, Debug, PartialEq, Eq)]
pub(crate) struct NoStore;

impl TryFrom<&str> for StoreKind {
    type Error = NoStore;

    fn try_from(value: &str) -> Result<StoreKind, NoStore> {
        Ok(match value {
            "image" => StoreKind::Image,
            "frozen" => StoreKind::Frozen,
            "checks" => StoreKind::Checks,
            _ => {
                let first = value.strip_prefix("split:").ok_or(NoStore)?;
                StoreKind::Split(number(first).map_err(|_| NoStore)?)
            }
        })
    }
}

fn to_store<'a>(value: &'a str) -> Result<StoreKind, Misuse<'a>> {
    StoreKind::try_from(value).map_err(|_| Misuse::BadValue {
        option: "--store",
        value,
    })
}

// A value that is given at most once.
fn once<'a>(
    given: &mut Option<&'a str>,
    value: &'a str,
    twice: Misuse<'a>,
) -> Result<(), Misuse<'a>> {
    given.replace(value).map_or(Ok(()), |_| Err(twice))
}

fn read_inspect<'a>(words: &'a [String]) -> Result<Command<'a>, Misuse<'a>> {
    let mut pages = None;
    let mut catalogue = None;
    let mut store = None;
    let mut words = words.iter().map(String::as_str);
    while let Some(word) = words.next() {
        if !word.starts_with("-") {
            once(&mut pages, word, Misuse::Extra(word))?;
            continue;
        }
        let given = match word {
            "--catalogue" => &mut catalogue,
            "--store" => &mut store,
            _ => return Err(Misuse::UnknownOption(word)),
        };
        let value = words.next().ok_or(Misuse::NoValue(word))?;
        once(given, value, Misuse::Twice(word))?;
    }
    Ok(Command::Inspect(Inspect {
        pages: pages.ok_or(Misuse::NoPages)?,
        catalogue,
        store: store.map_or(Ok(StoreKind::Image), to_store)?,
    }))
}

fn read_seal<'a>(words: &'a [String]) -> Result<Command<'a>, Misuse<'a>> {
    let (first, rest) = words.split_first().ok_or(Misuse::NoPages)?;
    let first = first.as_str();
    if first.starts_with("-") {
        return Err(Misuse::UnknownOption(first));
    }
    // a match, no map_or: the check does not follow what a closure would lend here
    match rest.first() {
        None => Ok(Command::Seal(first)),
        Some(extra) => Err(Misuse::Extra(extra.as_str())),
    }
}

// The arguments after the program's own name.
pub(crate) fn read_command(words: &[String]) -> Result<Command<'_>, Misuse<'_>> {
    let (first, rest) = words.split_first().ok_or(Misuse::NoCommand)?;
    match first.as_str() {
        "--help" | "-h" | "help" => Ok(Command::Help),
        "inspect" => read_inspect(rest),
        "seal" => read_seal(rest),
        word if word.starts_with("-") => Err(Misuse::UnknownOption(word)),
        word => Err(Misuse::UnknownCommand(word)),
    }
}
