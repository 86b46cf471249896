// The check of a page, and where it stands.
ghost use Rattle.std.specs.Prelude.{◌≡◌, ◌+◌, ◌*◌, ◌<◌, ◌≤◌, true, length};
ghost use Rattle.checks.specs.Layer.{check, checked_count, check_page, check_cell};
ghost use Rattle.checks.specs.Calls.{agreeing, for_page, in_layer};

use fault::Fault;
use page::cell;

// What byte i adds to the check.
fn share(i: usize, byte: u8) -> u32
    requires { i < 512 }
    ensures { result ≡ (i + 1) * byte }
{
    (i as u32 + 1) * u32::from(byte)
}

// The sum of i + 1 times byte i.
pub(super) fn weigh(bytes: &[u8]) -> u64
    requires { length bytes.now ≤ 512 }
    ensures { result ≡ check bytes.now }
{
    // in 32 bits, of which a processor takes several at once
    let sum: u32 = bytes
        .iter()
        .enumerate()
        .map(|(i, byte)| share(i, *byte))
        .sum();
    u64::from(sum)
}

// How many pages the layer has over `below` pages: one page of checks stands above each 64.
pub(super) fn checked_count(below: u64) -> u64
    ensures { result ≡ checked_count below }
{
    below - below.div_ceil(65)
}

pub(super) fn in_layer(below: u64, n: u64) -> bool
    ensures { result ≡ in_layer below n }
{
    (1..=checked_count(below)).contains(&n)
}

// The page below with the check of page n.
pub(super) fn check_page(below: u64, n: u64) -> u64
    requires { in_layer below n ≡ true }
    ensures { result ≡ check_page below n }
{
    checked_count(below) + 1 + (n - 1) / 64
}

// The cell of its check page that has the check of page n.
pub(super) fn check_cell(n: u64) -> u64
    requires { 0 < n }
    ensures { result ≡ check_cell n }
{
    (n - 1) % 64
}

// Whether cell i of `sums` has the check of the page.
pub(super) fn agrees(page: &[u8], sums: &[u8], i: u64) -> bool
    requires { length page.now ≤ 512 }
    ensures { result ≡ agreeing page.now sums.now i }
{
    cell(sums, i).is_some_and(|sum| weigh(page) == sum)
}

// A refusal of a check page, reported for page n.
pub(super) fn for_page(answer: Result<(), Fault>, n: u64) -> Result<(), Fault>
    ensures { result ≡ for_page n answer }
{
    answer.map_err(|e| Fault::marked(e.cause, e.layer, n))
}
