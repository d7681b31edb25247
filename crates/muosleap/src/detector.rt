//! Codes, levels and quads: the entries that port the original's detector.rs.
ghost use Rattle.std.specs.Prelude.{◌≡◌};
ghost use Rattle.refusals.specs.Numbers.{outcome, done};
ghost use Rattle.reader.specs.Answer.{paper_reading};
ghost use Rattle.muosleap.specs.Quad.{paper_quad, decode_quad, decode_quad_in};
ghost use Rattle.muosleap.specs.BitCode.{bit_code};
ghost use Rattle.muosleap.specs.Likeness.{check_likeness};
ghost use Rattle.muosleap.specs.Codes.{paper_search, paper_count, turned, best_tag, codes_compared};

use points::Quad;
use reader::Reading;
use refusals::{Frame, Picture, Refusal};
use search::SearchResult;
use tables::Family;
use tables::checked::Table;

/// The word turned once. Refusal 6 for an edge outside 1 to 8.
#[tactic(auto, using(std::proofs::lemmas::Bool::Decides::nat_tests), unfolding(crate::specs::Codes::turned))]
pub fn rotate_bits(bits: u64, edge: u8) -> Result<u64, Refusal>
    ensures { outcome result ≡ turned bits edge }
{
    if tables::bad_edge(edge) {
        return Err(Refusal::Table);
    }
    Ok(word::rotate_bits(bits, edge))
}

/// The code that a word shows, the turn at which it shows it, and in how many bits they differ; and how many codes were compared. Refusal 6
/// for the table, of which all is lent but the border. Where no code is near in four turns, which is refusal 13, the count stands alone.
#[tactic(auto, using(tables::proofs::Table::good_codes), unfolding(crate::specs::Codes::best_tag, crate::specs::Codes::codes_compared))]
pub fn best_tag(
    bits: u64,
    hamming_distance: u8,
    codes: &[u64],
    edge: u8,
) -> Result<SearchResult, Refusal>
    ensures answer { paper_search result ≡ best_tag bits hamming_distance codes.now edge }
    ensures count { paper_count result ≡ codes_compared bits hamming_distance codes.now edge }
{
    if tables::bad_codes(edge, hamming_distance, codes) {
        return Err(Refusal::Table);
    }
    Ok(search::best_tag(bits, hamming_distance, codes, edge))
}

/// Whether a table can be read one way only. Refusal 6 for the table, and 7 where its codes are too much alike.
#[tactic(auto, unfolding(crate::specs::Likeness::check_likeness))]
pub fn check_likeness(family: Family, codes: &[u64]) -> Result<(), Refusal>
    ensures { done result ≡ check_likeness family codes.now }
{
    let lent = Table::new(family, codes)?;
    if likeness::passes(lent.codes, lent.family.edge, lent.family.hamming_distance) {
        return Ok(());
    }
    Err(Refusal::Alike)
}

/// Levels to bits: the word whose highest bit is the first level's, 1 where it is above the middle. Refusal 15 for no levels or
/// more than 64, 11 where greatest minus least is below 50, and 12 for more unsure levels than allowed.
#[tactic(auto, using(std::proofs::lemmas::Bool::Decides::nat_tests), unfolding(crate::specs::BitCode::bit_code))]
pub fn bit_code(levels: &[u8], band: u8, allowed: u32) -> Result<u64, Refusal>
    ensures { outcome result ≡ bit_code levels.now band allowed }
{
    if levels.is_empty() || 64 < levels.len() {
        return Err(Refusal::Count);
    }
    levels::bit_code(levels, band, allowed)
}

/// The refusals 1 and 6, then the reading with a lent table.
#[tactic(auto, unfolding(crate::specs::Quad::decode_quad))]
fn read(
    plane: &[u8],
    frame: Frame,
    family: Family,
    codes: &[u64],
    quad: Quad,
) -> Result<Reading, Refusal>
    ensures { paper_quad result ≡ decode_quad plane.now frame family codes.now quad }
{
    let picture = Picture::new(plane, frame)?;
    let table = Table::new(family, codes)?;
    Ok(reader::try_decode_quad(&picture, &table, quad))
}

/// The same by family number.
#[tactic(auto, unfolding(crate::specs::Quad::decode_quad_in))]
fn read_in(plane: &[u8], frame: Frame, family: u8, quad: Quad) -> Result<Reading, Refusal>
    ensures { paper_quad result ≡ decode_quad_in plane.now frame family quad }
{
    // One line differs from `read`: a shared function would take a table's `Result`, made before the plane is tested, or a closure.
    let picture = Picture::new(plane, frame)?;
    let table = tag_families::table(family)?;
    Ok(reader::try_decode_quad(&picture, &table, quad))
}

/// A reading of one quad with a lent table. Refusals 1, 6, and 8 to 13.
pub fn try_decode_quad(
    plane: &[u8],
    frame: Frame,
    family: Family,
    codes: &[u64],
    quad: Quad,
) -> Reading
    ensures { paper_reading result ≡ decode_quad plane.now frame family codes.now quad }
{
    read(plane, frame, family, codes, quad).unwrap_or_else(Reading::from)
}

/// The same by family number, over the constant tables. Refusal 6 where there is no such family.
pub fn try_decode_quad_in(plane: &[u8], frame: Frame, family: u8, quad: Quad) -> Reading
    ensures { paper_reading result ≡ decode_quad_in plane.now frame family quad }
{
    read_in(plane, frame, family, quad).unwrap_or_else(Reading::from)
}
