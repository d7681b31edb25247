//! A table: a list of codes, and what a reader has to know of it. Refusal 6 says which tables are taken.
#![tactic(auto)]

pub mod checked;

ghost use Rattle.std.specs.Prelude.{◌≡◌, false, ◌^◌, ◌<◌};
ghost use Rattle.lists.specs.Tab.{all};
ghost use Rattle.tables.specs.Table.{outside, bad_edge, bad_border, below, in_square, bad_codes, bad_table, side_of};

/// The edge of the square of modules, the border around it in modules, and the match threshold.
#[derive(Clone, Copy, Debug, PartialEq, Eq)]
pub struct Family {
    pub edge: u8,
    pub border: u8,
    pub hamming_distance: u8,
}

/// `n` is not one of `lo`, .., `hi`.
pub fn is_outside(lo: usize, hi: usize, n: usize) -> bool
    ensures { result ≡ outside lo hi n }
{
    !(lo..=hi).contains(&n)
}

pub fn bad_edge(edge: u8) -> bool
    ensures { result ≡ bad_edge edge }
{
    is_outside(1, 8, edge as usize)
}

pub fn bad_border(border: u8) -> bool
    ensures { result ≡ bad_border border }
{
    is_outside(1, 4, border as usize)
}

/// Every code is below 2^places. Their bits are gathered into one number, which is then below it too: whole words are not
/// compared in vector registers.
fn all_below(codes: &[u64], places: u64) -> bool
    requires { places < 64 }
    ensures { result ≡ all (below (2 ^ places)) codes.now }
{
    let mut gathered: u64 = 0;
    for code in codes {
        gathered |= *code;
    }
    gathered < (1 << places)
}

/// Every code is a word of the square. At edge 8 every u64 is.
pub fn codes_fit(codes: &[u64], edge: u8) -> bool
    requires { bad_edge edge ≡ false }
    ensures { result ≡ all (in_square edge) codes.now }
{
    let edge = u64::from(edge);
    edge == 8 || all_below(codes, edge * edge)
}

/// Refusal 6 for a table of which all is lent but the border.
#[tactic(auto, unfolding(crate::specs::Table::bad_codes))]
pub fn bad_codes(edge: u8, hamming_distance: u8, codes: &[u64]) -> bool
    ensures { result ≡ bad_codes edge hamming_distance codes.now }
{
    bad_edge(edge)
        || is_outside(1, 1024, codes.len())
        || is_outside(1, 64, hamming_distance as usize)
        || !codes_fit(codes, edge)
}

/// Refusal 6 for a whole table.
#[tactic(auto, unfolding(crate::specs::Table::bad_table))]
pub fn bad_table(family: Family, codes: &[u64]) -> bool
    ensures { result ≡ bad_table family codes.now }
{
    bad_border(family.border) || bad_codes(family.edge, family.hamming_distance, codes)
}

/// The modules of a tag's side, its border included.
pub fn side_of(edge: u8, border: u8) -> usize
    ensures { result ≡ side_of edge border }
{
    edge as usize + 2 * border as usize
}
