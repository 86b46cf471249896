// Decimal numbers on a line of text.
ghost use Rattle.std.specs.Prelude.{ℕ, List, IfOk};
ghost use Rattle.std.specs.Str.Iter.{split_whitespace_rest};
ghost use Rattle.std.specs.Str.Parse.{ParsesUnsigned};
ghost use Rattle.console.specs.Words.{Words, Write};

use std::fmt;
use std::num::IntErrorKind;
use std::str::SplitWhitespace;

// What is wrong with a line of numbers.
#[derive(Clone, Copy, Debug, PartialEq, Eq)]
pub enum Mistake<'a> {
    TooFew { wanted: usize, found: usize },
    TooMany { wanted: usize },
    NoNumber(&'a str),
    TooLarge(&'a str),
}

impl fmt::Display for Mistake<'_> {
    fn fmt<W: fmt::Write>(&self, f: &mut fmt::Formatter<W>) -> fmt::Result {
        match *self {
            Mistake::TooFew { wanted, found } => {
                write!(f, "{wanted} numbers expected, {found} found")
            }
            Mistake::TooMany { wanted } => write!(f, "more than {wanted} numbers"),
            Mistake::NoNumber(word) => write!(f, "'{word}' is no number"),
            Mistake::TooLarge(word) => write!(f, "'{word}' is above 18446744073709551615"),
        }
    }
}

pub(crate) fn number(word: &str) -> Result<u64, Mistake<'_>>
    ensures { ParsesUnsigned 64 10 word.now result }
{
    word.parse::<u64>().map_err(|e| match e.kind() {
        IntErrorKind::PosOverflow => Mistake::TooLarge(word),
        _ => Mistake::NoNumber(word),
    })
}

// As many numbers as are wanted, and nothing else.
pub(crate) fn numbers<'a, const N: usize>(
    mut words: SplitWhitespace<'a>,
) -> Result<[u64; N], Mistake<'a>>
    ensures { IfOk result (λ ns. (ws : List (List ℕ)) × Words (split_whitespace_rest words.entry) ws × Write ws ns) }
{
    let mut all = [0u64; N];
    for (found, slot) in all.iter_mut().enumerate() {
        let word = words.next().ok_or(Mistake::TooFew { wanted: N, found })?;
        *slot = number(word)?;
    }
    // a match, no map_or: the check does not follow what `words` lends through it
    match words.next() {
        None => Ok(all),
        Some(_) => Err(Mistake::TooMany { wanted: N }),
    }
}
