//! Reports: a list reading written as bytes, and read again. The original has none.
ghost use Rattle.std.specs.Prelude.{◌≡◌};
ghost use Rattle.refusals.specs.Numbers.{outcome};
ghost use Rattle.listing.specs.Listing.{listing_of};
ghost use Rattle.muosleap_report.specs.Reports.{writing_of, write_report, read_report};

use listing::{MOST_QUADS, ROW_SIZE};
use points::QUAD_SIZE;
use refusals::Refusal;

/// The report of rows (refusal, id, turn, differing modules) and eight corner numbers a row; the answer is its length. Refusal 19 for more
/// than 1,024 whole rows, 20 where they are no reading, 19 for an output too short. A refused call leaves the output as it was.
#[tactic(auto, using(crate::proofs::Order::writing))]
pub fn write_report(rows: &[u64], corners: &[f32], report: &mut [u8]) -> Result<usize, Refusal>
    ensures { writing_of (outcome result) report.new ≡ write_report rows.now corners.now report.old }
{
    if MOST_QUADS < rows.len() / ROW_SIZE {
        return Err(Refusal::Long);
    }
    let size = report_writer::report_size(rows, corners)?;
    if report.len() < size {
        return Err(Refusal::Long);
    }
    Ok(report_writer::put_report(rows, corners, report))
}

/// The rows and the corner numbers of a report; the answer is the number of rows. Refusal 20 for bytes without a number of rows, 19 for one above
/// 1,024, 20 for bytes that are no report, 19 for an output too short. A refused call leaves both outputs as they were.
#[tactic(auto, using(crate::proofs::Order::reading))]
pub fn read_report(report: &[u8], rows: &mut [u64], corners: &mut [f32]) -> Result<usize, Refusal>
    ensures { listing_of (outcome result) rows.new corners.new ≡ read_report report.now rows.old corners.old }
{
    if report.len() < 2 {
        return Err(Refusal::NoReading);
    }
    let count = report_reader::two_bytes(report, 0);
    if MOST_QUADS < count {
        return Err(Refusal::Long);
    }
    if !report_reader::is_report(report, count) {
        return Err(Refusal::NoReading);
    }
    if rows.len() < ROW_SIZE * count || corners.len() < QUAD_SIZE * count {
        return Err(Refusal::Long);
    }
    report_reader::put_rows(report, count, rows, corners);
    Ok(count)
}
