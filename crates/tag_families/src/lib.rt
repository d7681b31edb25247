//! The families of the original: their code lists, and the small table of edge, border and match threshold.
//! Family numbers: 0 T16H5, 1 T25H7, 2 T25H9, 3 T36H11, 4 T36H11B1 (the codes of T36H11 in a border of 1).
#![tactic(auto)]

pub mod codes;

ghost use Rattle.std.specs.Prelude.{◌≡◌, true, false, ◌*◌, ◌^◌, ◌<◌, length, get_or, IfOk, IfErr};
ghost use Rattle.tag_families.specs.Families.{is_family, family_of, codes_of};

use codes::{T16H5, T25H7, T25H9, T36H11};
use refusals::Refusal;
use tables::Family;
use tables::checked::Table;

static FAMILIES: [Family; 5] = [
    Family {
        edge: 4,
        border: 2,
        hamming_distance: 1,
    },
    Family {
        edge: 5,
        border: 2,
        hamming_distance: 2,
    },
    Family {
        edge: 5,
        border: 2,
        hamming_distance: 2,
    },
    Family {
        edge: 6,
        border: 2,
        hamming_distance: 3,
    },
    Family {
        edge: 6,
        border: 1,
        hamming_distance: 3,
    },
];

/// What the small table says of a family. Families go by their numbers, as document 01 has it and C gives them.
pub fn family(number: u8) -> Family
    requires { number < 5 }
    ensures { result ≡ family_of number }
{
    FAMILIES[number as usize]
}

/// The codes of a family.
pub fn codes_of(number: u8) -> &'static [u64]
    requires { number < 5 }
    ensures { result.now ≡ codes_of number }
{
    match number {
        0 => &T16H5,
        1 => &T25H7,
        2 => &T25H9,
        _ => &T36H11,
    }
}

/// How many codes a family has.
pub fn code_count(number: u8) -> usize
    requires { number < 5 }
    ensures { result ≡ length (codes_of number) }
{
    codes_of(number).len()
}

/// The code of a family at a position, which is a word of edge² bits: here the bound of a list's codes is carried to each position.
pub fn code(number: u8, position: usize) -> u64
    requires { (number < 5) × (position < length (codes_of number)) }
    ensures { (result ≡ get_or (codes_of number) position 0) × (result < 2 ^ ((family_of number).edge * (family_of number).edge)) }
{
    codes_of(number)[position]
}

/// The table of a family, and refusal 6 where there is no such family.
pub fn table(number: u8) -> Result<Table<'static>, Refusal>
    ensures ok { IfOk result (λ t. (t.family ≡ family_of number) × (t.codes.now ≡ codes_of number) × (is_family number ≡ true)) }
    ensures refused { IfErr result (λ e. (e ≡ Refusal.Table) × (is_family number ≡ false)) }
{
    if 5 <= number {
        return Err(Refusal::Table);
    }
    Ok(Table {
        family: family(number),
        codes: codes_of(number),
    })
}
