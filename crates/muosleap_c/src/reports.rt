//! Reports: a list reading as bytes, and back.
ghost use Rattle.muosleap_report.specs.Reports.{write_report, read_report};
ghost use Rattle.outputs.specs.Outputs.{held};
ghost use Rattle.muosleap_c.specs.Reports.{WritesReport, ReadsReport};

/// A report's writing, and how many bytes it has. Refusals 19 and 20.
#[unsafe(no_mangle)]
pub extern "C" fn muosleap_write_report(
    rows: &[u64],
    corners: &[f32],
    report: &mut [u8],
    written: &mut usize,
) -> u32
    ensures { WritesReport (write_report rows.now corners.now report.old) result (held report) (held written) }
{
    let answer = muosleap_report::reports::write_report(rows, corners, report);
    outputs::put(answer, written)
}

/// A report's reading, and how many rows it has. Refusals 19 and 20.
#[unsafe(no_mangle)]
pub extern "C" fn muosleap_read_report(
    report: &[u8],
    rows: &mut [u64],
    corners: &mut [f32],
    count: &mut usize,
) -> u32
    ensures { ReadsReport (read_report report.now rows.old corners.old) result (held rows) (held corners) (held count) }
{
    let answer = muosleap_report::reports::read_report(report, rows, corners);
    outputs::put(answer, count)
}
