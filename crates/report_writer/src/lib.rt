//! Rows and corner numbers to the bytes of a report: the first pass tests them and adds up the bytes, the second one writes.
#![tactic(auto)]

ghost use Rattle.std.specs.Prelude.{◌≡◌, true, false, ◌&&◌, eqb, cond, ◌+◌, ◌*◌, ◌≤◌, length};
ghost use mathlib.Core.List.{◌++◌, flat_map};
ghost use Rattle.lists.specs.Front.{in_front};
ghost use Rattle.refusals.specs.Outcome.{accepted, refused};
ghost use Rattle.refusals.specs.Numbers.{outcome};
ghost use Rattle.points.specs.Numbers.{quad_size, numbers_of};
ghost use Rattle.places.specs.Rounding.{bad_coordinate};
ghost use Rattle.places.specs.Corners.{bad_corner, bad_corners};
ghost use Rattle.reader.specs.Answer.{paper_reading};
ghost use Rattle.listing.specs.Listing.{row_size, most_quads};
ghost use Rattle.text.specs.Put.{Put, HasRoom};
ghost use Rattle.report.specs.Reading.{row_refusal, good_row};
ghost use Rattle.report.specs.Bytes.{low_first, unless_zero, float_bytes, row_bytes, report_of};
ghost use Rattle.report.specs.Rows.{front_row, row_count, rows_say, is_rows};
ghost use Rattle.report.specs.Steps.{row_stands};
ghost use Rattle.report_writer.specs.Steps.{tag_row, no_bits, no_corner, no_corners};

use listing::{MOST_IDS, ROW_SIZE};
use points::{Point, QUAD_SIZE, Quad};
use reader::Reading;
use refusals::Refusal;
use report::{Met, REFUSED_MAP};
use text::Output;

/// Whether a tag may stand in a reading: "id below 1,024 .., turn at most 3, differing modules at most 63, corners that 8 lets through".
fn tag_stands(id: u64, turn: u64, differing: u64, quad: Quad) -> bool
    ensures { result ≡ good_row (tag_row id turn differing quad) }
{
    id < MOST_IDS as u64 && turn <= 3 && differing <= 63 && places::Corners::new(quad).is_ok()
}

/// Whether every bit of a number is zero, which -0.0 is not.
#[tactic(auto, using(crate::proofs::Row::nan_bits))]
fn no_bits(x: f32) -> bool
    ensures { result ≡ no_bits x }
{
    !x.is_nan() && f32::to_bits(x) == 0
}

fn no_corner(p: Point) -> bool
    ensures { result ≡ no_corner p }
{
    no_bits(p.x) && no_bits(p.y)
}

fn no_corners(quad: Quad) -> bool
    ensures { result ≡ no_corners quad }
{
    no_corner(quad.q0) && no_corner(quad.q1) && no_corner(quad.q2) && no_corner(quad.q3)
}

/// Whether a refusal may stand in a reading: "refusals 8 to 13 or 18 with every other bit of the row and its corners zero".
fn refusal_stands(n: u64, id: u64, turn: u64, differing: u64, quad: Quad) -> bool
    ensures { result ≡ row_refusal n && (eqb id 0 && (eqb turn 0 && (eqb differing 0 && no_corners quad))) }
{
    report::is_row_refusal(n) && id == 0 && turn == 0 && differing == 0 && no_corners(quad)
}

/// Whether the first of some rows, with its corner numbers, may stand in a reading, whatever the others are.
#[tactic(auto, using(crate::proofs::Row::tag_stands, crate::proofs::Row::refusal_stands))]
fn row_stands(rows: &[u64], corners: &[f32]) -> bool
    requires { (row_size ≤ length rows.now) × (quad_size ≤ length corners.now) }
    ensures { result ≡ row_stands rows.now corners.now }
{
    let quad = points::quad_at(corners, 0);
    if rows[0] == 0 {
        tag_stands(rows[1], rows[2], rows[3], quad)
    } else {
        refusal_stands(rows[0], rows[1], rows[2], rows[3], quad)
    }
}

/// What the first of some rows says, which may stand in a reading. It tests nothing, and is called after `row_stands`: where both passes
/// test, a report takes twice as long.
fn reading_of(rows: &[u64], corners: &[f32]) -> Reading
    requires { (row_size ≤ length rows.now) × (quad_size ≤ length corners.now) × (row_stands rows.now corners.now ≡ true) }
    ensures { paper_reading result ≡ front_row rows.now corners.now }
{
    if rows[0] != 0 {
        return Reading::Refused(rows[0] as u8);
    }
    Reading::Tag {
        id: rows[1] as usize,
        turn: rows[2] as u8,
        differing: rows[3] as u8,
        corners: points::quad_at(corners, 0),
    }
}

/// Puts a number in two bytes, the low one first.
fn put_two(n: u16, output: &mut Output)
    requires { HasRoom output.old 2 }
    ensures { Put (low_first 2 n) output.old output.new }
{
    output.put(&n.to_le_bytes());
}

/// Puts a field that is left out when 0.
fn put_unless_zero(n: u8, output: &mut Output)
    requires { HasRoom output.old (length (unless_zero n)) }
    ensures { Put (unless_zero n) output.old output.new }
{
    if n != 0 {
        output.put_byte(n);
    }
}

/// Puts the bits of a coordinate that refusal 8 lets through, the low byte first.
fn put_float(x: f32, output: &mut Output)
    requires { (bad_coordinate x ≡ false) × HasRoom output.old 4 }
    ensures { Put (float_bytes x) output.old output.new }
{
    output.put(&f32::to_bits(x).to_le_bytes());
}

/// Puts a corner's two numbers.
fn put_point(p: Point, output: &mut Output)
    requires { (bad_corner p ≡ false) × HasRoom output.old 8 }
    ensures { Put (float_bytes p.x ++ float_bytes p.y) output.old output.new }
{
    put_float(p.x, output);
    put_float(p.y, output);
}

/// Puts a quad's eight numbers.
fn put_corners(quad: Quad, output: &mut Output)
    requires { (bad_corners quad ≡ false) × HasRoom output.old 32 }
    ensures { Put (flat_map float_bytes (numbers_of quad)) output.old output.new }
{
    put_point(quad.q0, output);
    put_point(quad.q1, output);
    put_point(quad.q2, output);
    put_point(quad.q3, output);
}

/// Puts the row of a tag.
fn put_tag(id: usize, turn: u8, differing: u8, quad: Quad, output: &mut Output)
    requires { (good_row (tag_row id turn differing quad) ≡ true) × HasRoom output.old (length (row_bytes (tag_row id turn differing quad))) }
    ensures { Put (row_bytes (tag_row id turn differing quad)) output.old output.new }
{
    output.put_byte(report::tag_map(turn, differing));
    put_two(id as u16, output);
    put_unless_zero(turn, output);
    put_unless_zero(differing, output);
    put_corners(quad, output);
}

/// Puts a row: a map, and the fields whose bit it has.
fn put_row(row: Reading, output: &mut Output)
    requires { (good_row (paper_reading row) ≡ true) × HasRoom output.old (length (row_bytes (paper_reading row))) }
    ensures { Put (row_bytes (paper_reading row)) output.old output.new }
{
    match row {
        Reading::Tag {
            id,
            turn,
            differing,
            corners,
        } => put_tag(id, turn, differing, corners, output),
        Reading::Refused(n) => output.put(&[REFUSED_MAP, n]),
    }
}

/// The first pass, over at most 1,024 rows: tests every row once, meets its id, and adds up the bytes of the report. Refusal 20 where the rows
/// and corner numbers are no reading.
pub fn report_size(rows: &[u64], corners: &[f32]) -> Result<usize, Refusal>
    requires { row_count (length rows.now) ≤ most_quads }
    ensures { outcome result ≡ cond (is_rows rows.now corners.now)
        (accepted (length (report_of (rows_say rows.now corners.now)))) (refused 20) }
{
    if rows.len() % ROW_SIZE != 0 || corners.len() != QUAD_SIZE * (rows.len() / ROW_SIZE) {
        return Err(Refusal::NoReading);
    }
    let mut met = Met::none();
    let mut size = 2;
    for (numbers, quad) in rows
        .chunks_exact(ROW_SIZE)
        .zip(corners.chunks_exact(QUAD_SIZE))
    {
        if !row_stands(numbers, quad) {
            return Err(Refusal::NoReading);
        }
        let row = reading_of(numbers, quad);
        if met.has(row) {
            return Err(Refusal::NoReading);
        }
        met.add(row);
        size += report::row_size(row);
    }
    Ok(size)
}

/// The second pass, over a reading: writes its report at the front of the output and says how long it is.
pub fn put_report(rows: &[u64], corners: &[f32], report: &mut [u8]) -> usize
    requires { (is_rows rows.now corners.now ≡ true) × (row_count (length rows.now) ≤ most_quads) × (length (report_of (rows_say rows.now corners.now)) ≤ length report.old) }
    ensures { (result ≡ length (report_of (rows_say rows.now corners.now)))
        × (report.new ≡ in_front (report_of (rows_say rows.now corners.now)) report.old) }
{
    let mut output = Output {
        bytes: report,
        at: 0,
    };
    put_two((rows.len() / ROW_SIZE) as u16, &mut output);
    for (numbers, quad) in rows
        .chunks_exact(ROW_SIZE)
        .zip(corners.chunks_exact(QUAD_SIZE))
    {
        put_row(reading_of(numbers, quad), &mut output);
    }
    output.at
}
