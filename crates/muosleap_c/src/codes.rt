//! Words, codes and levels.
ghost use Rattle.std.specs.Prelude.{◌≡◌};
ghost use Rattle.refusals.specs.Outcome.{number};
ghost use Rattle.muosleap.specs.Codes.{turned, best_tag, codes_compared};
ghost use Rattle.muosleap.specs.Likeness.{check_likeness};
ghost use Rattle.muosleap.specs.BitCode.{bit_code};
ghost use Rattle.outputs.specs.Outputs.{Gives, whole, held};
ghost use Rattle.muosleap_c.specs.Tags.{FindsTag};
ghost use Rattle.muosleap_c.specs.Structs.{table_of};

use crate::structs;
use refusals::Refusal;

/// The word turned once. Refusal 6.
#[unsafe(no_mangle)]
pub extern "C" fn muosleap_rotate_bits(bits: u64, edge: u8, word: &mut u64) -> u32
    ensures { Gives (turned bits edge) whole result (held word) }
{
    outputs::put(muosleap::detector::rotate_bits(bits, edge), word)
}

/// The code that a word shows; the count of codes compared is written beside 13 too. Refusals 6 and 13.
#[unsafe(no_mangle)]
pub extern "C" fn muosleap_best_tag(
    bits: u64,
    hamming_distance: u8,
    codes: &[u64],
    edge: u8,
    id: &mut usize,
    turn: &mut u8,
    differing: &mut u8,
    compared: &mut usize,
) -> u32
    ensures { FindsTag (best_tag bits hamming_distance codes.now edge) (codes_compared bits hamming_distance codes.now edge)
        result (held id) (held turn) (held differing) (held compared) }
{
    match muosleap::detector::best_tag(bits, hamming_distance, codes, edge) {
        Ok(search) => {
            *compared = search.compared;
            let Some(found) = search.found else {
                return u32::from(Refusal::Unread.number());
            };
            *id = found.id;
            *turn = found.turn;
            *differing = found.differing;
            0
        }
        Err(refusal) => u32::from(refusal.number()),
    }
}

/// Whether a table can be read one way only. Refusals 6 and 7.
#[unsafe(no_mangle)]
pub extern "C" fn muosleap_check_likeness(
    edge: u8,
    border: u8,
    hamming_distance: u8,
    codes: &[u64],
) -> u32
    ensures { result ≡ number (check_likeness (table_of edge border hamming_distance) codes.now) }
{
    let family = structs::table_of(edge, border, hamming_distance);
    outputs::number_of(muosleap::detector::check_likeness(family, codes))
}

/// Levels to bits. Refusals 15, 11 and 12.
#[unsafe(no_mangle)]
pub extern "C" fn muosleap_bit_code(levels: &[u8], band: u8, allowed: u32, word: &mut u64) -> u32
    ensures { Gives (bit_code levels.now band allowed) whole result (held word) }
{
    outputs::put(muosleap::detector::bit_code(levels, band, allowed), word)
}
