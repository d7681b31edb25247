//! What the writer and the reader of reports share: the ids met so far, the map of a row, how many bytes it has, and which refusals stand in rows.
#![tactic(auto)]

ghost use Rattle.std.specs.Prelude.{◌≡◌, false, length, replicate};
ghost use Rattle.reader.specs.Answer.{paper_reading};
ghost use Rattle.report.specs.Reading.{row_refusal};
ghost use Rattle.report.specs.Bytes.{one_unless_zero, tag_map, row_bytes};
ghost use Rattle.report.specs.Steps.{is_met, meet};

use listing::MOST_IDS;
use reader::Reading;

/// The map of a refused row.
pub const REFUSED_MAP: u8 = 16;

/// The ids of the rows so far: for each id whether it was met.
#[derive(Drop)]
pub struct Met {
    pub ids: [bool; MOST_IDS],
}

impl Met {
    /// None is met at first.
    pub fn none() -> Met
        ensures { result.ids ≡ replicate 1024 false }
    {
        Met {
            ids: [false; MOST_IDS],
        }
    }

    /// Whether the id of a row was met before. A refused row has none.
    pub fn has(&self, row: Reading) -> bool
        ensures { result ≡ is_met self.now.ids (paper_reading row) }
    {
        match row {
            Reading::Tag { id, .. } => self.ids.get(id) == Some(&true),
            Reading::Refused(_) => false,
        }
    }

    /// Meets the id of a row.
    pub fn add(&mut self, row: Reading)
        ensures { self.new.ids ≡ meet self.old.ids (paper_reading row) }
    {
        if let Reading::Tag { id, .. } = row
            && id < MOST_IDS
        {
            self.ids[id] = true;
        }
    }
}

/// 1 where a field follows, which is left out where it is 0.
pub fn one_unless_zero(n: u8) -> u8
    ensures { result ≡ one_unless_zero n }
{
    u8::from(n != 0)
}

/// The map of a tag's row.
pub fn tag_map(turn: u8, differing: u8) -> u8
    ensures { result ≡ tag_map turn differing }
{
    1 + 2 * one_unless_zero(turn) + 4 * one_unless_zero(differing) + 8
}

/// Whether a refusal stands in rows: "refusals 8 to 13 or 18".
pub fn is_row_refusal(n: u64) -> bool
    ensures { result ≡ row_refusal n }
{
    matches!(n, 8..=13 | 18)
}

/// How many bytes a row has.
pub fn row_size(row: Reading) -> usize
    ensures { result ≡ length (row_bytes (paper_reading row)) }
{
    match row {
        Reading::Tag {
            turn,
            differing,
            ..
        } => 35 + one_unless_zero(turn) as usize + one_unless_zero(differing) as usize,
        Reading::Refused(_) => 2,
    }
}
