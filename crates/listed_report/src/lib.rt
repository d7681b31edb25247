//! Ticket 7 of 02 said of the code: a function that reads a list and writes its report. It is no public entry, but takes any input as
//! these do, in plain slices. specs/Reported.antt says what is proved of it.
#![tactic(auto)]

ghost use Rattle.refusals.specs.Numbers.{outcome};
ghost use Rattle.listed_report.specs.Reported.{ListReported};

use listing::ROW_SIZE;
use muosleap::quads::try_decode_quads;
use muosleap_report::reports::write_report;
use points::QUAD_SIZE;
use refusals::{Frame, Refusal};
use tables::Family;

/// Reads a list with a lent table, and writes the report of the rows and the corner numbers as the list reader left them. Where that
/// refuses the list, the answer is its number.
pub fn try_decode_quads_reported(
    plane: &[u8],
    frame: Frame,
    family: Family,
    codes: &[u64],
    quads: &[f32],
    rows: &mut [u64],
    corners: &mut [f32],
    report: &mut [u8],
) -> Result<usize, Refusal>
    ensures { ListReported plane.now frame family codes.now quads.now rows.old corners.old
        report.old (outcome result) rows.new corners.new report.new }
{
    let n = try_decode_quads(plane, frame, family, codes, quads, rows, corners)?;
    write_report(&rows[..ROW_SIZE * n], &corners[..QUAD_SIZE * n], report)
}
