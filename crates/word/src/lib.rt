//! A word as a square of bits: its quarter turn, and the number of bits in which two words differ. An edge is a plain number here and above,
//! as tables and C lend it; a checked `Square` or `Table` has a border too, which a word has not.
#![tactic(auto)]

mod sources;

ghost use Rattle.std.specs.Prelude.{◌≡◌, true, false, ◌+◌, ◌*◌, ◌^◌, ◌<◌, ◌≤◌, ltb, length};
ghost use Rattle.lists.specs.Tab.{all};
ghost use Rattle.word.specs.Word.{bit, source, turn, differing};
ghost use Rattle.word.specs.Sources.{has_table};
ghost use Rattle.word.specs.Gathered.{gathered};

use sources::{EDGE_4, EDGE_5, EDGE_6};

/// The bit of `bits` at place `k`.
fn bit_at(bits: u64, k: u64) -> u64
    requires { k < 64 }
    ensures { result ≡ bit bits k }
{
    (bits >> k) & 1
}

/// The word `b` of `k` places, with the bit `x` at one place more.
fn with_bit(b: u64, k: u64, x: u64) -> u64
    requires { (k < 64) × (b < 2 ^ k) × (x < 2) }
    ensures { result ≡ x * 2 ^ k + b }
{
    b | (x << k)
}

/// The place whose bit a turn puts into row `i` and column `j`, by the formula.
pub fn source_place(edge: u64, i: u64, j: u64) -> u64
    requires { (edge ≤ 8) × (i < edge) × (j < edge) }
    ensures { (result ≡ source edge (i * edge + j)) × (result < 64) }
{
    j * edge + (edge - 1 - i)
}

/// The word that has at each place the bit of `bits` from the place that the table names there.
fn by_table(bits: u64, table: &[u8]) -> u64
    requires { (length table.now ≤ 64) × (all (λ place. ltb place 64) table.now ≡ true) }
    ensures { result ≡ gathered table.now bits }
{
    let mut b: u64 = 0;
    for (k, place) in table.iter().enumerate() {
        b = with_bit(b, k as u64, bit_at(bits, *place as u64));
    }
    b
}

/// The square turned once by the formula, which is for the edges that have no table: from the highest place down, so that one shift by
/// a changing number is done for each bit and not two.
fn by_formula(bits: u64, edge: u8) -> u64
    requires { (edge ≤ 8) × (has_table edge ≡ false) }
    ensures { result ≡ turn edge bits }
{
    let e = edge as u64;
    let mut b: u64 = 0;
    for i in (0..e).rev() {
        for j in (0..e).rev() {
            b = b * 2 + bit_at(bits, source_place(e, i, j));
        }
    }
    b
}

/// The square turned once. Each table has a call of its own: there the compiler knows all of its numbers, and the loop becomes a run of moves.
pub fn rotate_bits(bits: u64, edge: u8) -> u64
    requires { (0 < edge) × (edge ≤ 8) }
    ensures { result ≡ turn edge bits }
{
    match edge {
        4 => by_table(bits, &EDGE_4),
        5 => by_table(bits, &EDGE_5),
        6 => by_table(bits, &EDGE_6),
        _ => by_formula(bits, edge),
    }
}

/// The number of bits in which two words differ.
pub fn differing_bits(a: u64, b: u64) -> u32
    ensures { result ≡ differing a b }
{
    u64::count_ones(a ^ b)
}
