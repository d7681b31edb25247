//! Bytes to a reading: whether they are a report, and its rows and corner numbers.
#![tactic(auto)]

ghost use Rattle.std.specs.Prelude.{◌≡◌, true, false, ◌&&◌, ◌+◌, ◌*◌, ◌≤◌, ◌<◌, leb, ltb, length, get_or, IfSome, IfNone};
ghost use Rattle.std.specs.Float.{binary32};
ghost use Rattle.std.specs.Float.Ieee.{of_bits};
ghost use Rattle.std.specs.Int.{from_bool};
ghost use Rattle.points.specs.Numbers.{quad_size};
ghost use Rattle.places.specs.Rounding.{bad_coordinate};
ghost use Rattle.places.specs.Corners.{bad_corner, bad_corners};
ghost use Rattle.reader.specs.Answer.{paper_reading};
ghost use Rattle.listing.specs.Listing.{row_size, most_quads};
ghost use Rattle.report.specs.Reading.{row_refusal};
ghost use Rattle.report.specs.Report.{number_at, float_in, point_in, quad_in, field_in, row_in, count_in, is_report};
ghost use Rattle.report.specs.Steps.{bytes_stand};
ghost use Rattle.report_reader.specs.Steps.{head_of, front_tag, tag_stands, PutRows};

use listing::MOST_IDS;
use points::{Point, Quad};
use reader::Reading;
use report::{Met, REFUSED_MAP};

/// The number of the two bytes at a place, low byte first. Fields are read by their places, since a field's place hangs on the bits before it.
pub fn two_bytes(bytes: &[u8], at: usize) -> usize
    requires { at + 2 ≤ length bytes.now }
    ensures { result ≡ number_at 2 at bytes.now }
{
    u16::from_le_bytes([bytes[at], bytes[at + 1]]) as usize
}

/// The bit pattern of the four bytes at a place, low byte first.
fn pattern_at(bytes: &[u8], at: usize) -> u32
    requires { at + 4 ≤ length bytes.now }
    ensures { result ≡ number_at 4 at bytes.now }
{
    u32::from_le_bytes([bytes[at], bytes[at + 1], bytes[at + 2], bytes[at + 3]])
}

/// Refusal 8 for a coordinate's bit pattern: an exponent of 14 or more.
fn bad_pattern(pattern: u32) -> bool
    ensures { result ≡ bad_coordinate (of_bits binary32 pattern) }
{
    141 <= pattern % 0x8000_0000 / 0x80_0000
}

/// Refusal 8 for the corner at a place.
fn bad_point(bytes: &[u8], at: usize) -> bool
    requires { at + 8 ≤ length bytes.now }
    ensures { result ≡ bad_corner (point_in at bytes.now) }
{
    bad_pattern(pattern_at(bytes, at)) | bad_pattern(pattern_at(bytes, at + 4))
}

/// Refusal 8 for the corners at a place, by their bit patterns: as floats they would each be tested for a NaN first.
fn bad_quad(bytes: &[u8], at: usize) -> bool
    requires { at + 32 ≤ length bytes.now }
    ensures { result ≡ bad_corners (quad_in at bytes.now) }
{
    bad_point(bytes, at)
        | bad_point(bytes, at + 8)
        | bad_point(bytes, at + 16)
        | bad_point(bytes, at + 24)
}

/// The number whose bits are the four bytes at a place, which refusal 8 lets through.
fn float_at(bytes: &[u8], at: usize) -> f32
    requires { (at + 4 ≤ length bytes.now) × (bad_coordinate (float_in at bytes.now) ≡ false) }
    ensures { result ≡ float_in at bytes.now }
{
    f32::from_bits(pattern_at(bytes, at))
}

/// The corner at a place, which refusal 8 lets through.
fn point_at(bytes: &[u8], at: usize) -> Point
    requires { (at + 8 ≤ length bytes.now) × (bad_corner (point_in at bytes.now) ≡ false) }
    ensures { result ≡ point_in at bytes.now }
{
    Point {
        x: float_at(bytes, at),
        y: float_at(bytes, at + 4),
    }
}

/// The corners at a place, which refusal 8 lets through.
fn quad_at(bytes: &[u8], at: usize) -> Quad
    requires { (at + 32 ≤ length bytes.now) × (bad_corners (quad_in at bytes.now) ≡ false) }
    ensures { result ≡ quad_in at bytes.now }
{
    Quad {
        q0: point_at(bytes, at),
        q1: point_at(bytes, at + 8),
        q2: point_at(bytes, at + 16),
        q3: point_at(bytes, at + 24),
    }
}

/// A field that may be left out: its byte where there is one, else 0.
fn field_at(bytes: &[u8], present: bool, at: usize) -> u8
    requires { at + from_bool present ≤ length bytes.now }
    ensures { result ≡ field_in (from_bool present) at bytes.now }
{
    if present { bytes[at] } else { 0 }
}

/// What a tag's row says before its corners, and their place.
#[derive(Clone, Copy, Debug, PartialEq, Eq)]
struct Head {
    id: usize,
    turn: u8,
    differing: u8,
    corners: usize,
}

/// The head of a tag's row: its map says whether a turn and differing modules follow the id.
fn head_of(bytes: &[u8]) -> Head
    requires { 5 ≤ length bytes.now }
    ensures { result ≡ head_of bytes.now }
{
    let map = bytes[0];
    let has_turn = map / 2 % 2 == 1;
    let has_differing = map / 4 % 2 == 1;
    let turn_end = 3 + usize::from(has_turn);
    Head {
        id: two_bytes(bytes, 1),
        turn: field_at(bytes, has_turn, 3),
        differing: field_at(bytes, has_differing, turn_end),
        corners: turn_end + usize::from(has_differing),
    }
}

/// Whether a tag with these numbers may stand in a reading, if its corners may.
fn good_numbers(id: usize, turn: u8, differing: u8) -> bool
    ensures { result ≡ ltb id 1024 && (leb turn 3 && leb differing 63) }
{
    id < MOST_IDS && turn <= 3 && differing <= 63
}

/// The row of a tag that the bytes begin with, `None` where it may stand in no reading. Its map is the one that is written for its turn and
/// differing modules, so no field is there and 0.
#[tactic(auto, using(crate::proofs::Stands::tag_short))]
fn read_tag(bytes: &[u8]) -> Option<Reading>
    ensures row { IfSome result (λ r. (tag_stands bytes.now ≡ true) × (paper_reading r ≡ front_tag bytes.now)) }
    ensures nothing { IfNone result (tag_stands bytes.now ≡ false) }
{
    if bytes.len() < 35 {
        return None;
    }
    let head = head_of(bytes);
    if bytes.len() < head.corners + 32 {
        return None;
    }
    if bytes[0] == report::tag_map(head.turn, head.differing)
        && good_numbers(head.id, head.turn, head.differing)
        && !bad_quad(bytes, head.corners)
    {
        return Some(Reading::Tag {
            id: head.id,
            turn: head.turn,
            differing: head.differing,
            corners: quad_at(bytes, head.corners),
        });
    }
    None
}

/// The row that the bytes begin with, `None` where it may stand in no reading, whatever the others are.
#[tactic(auto, using(crate::proofs::Stands::front_rows))]
fn read_row(bytes: &[u8]) -> Option<Reading>
    ensures row { IfSome result (λ r. (bytes_stand bytes.now ≡ true) × (paper_reading r ≡ row_in bytes.now)) }
    ensures nothing { IfNone result (bytes_stand bytes.now ≡ false) }
{
    if bytes.len() < 2 {
        return None;
    }
    if bytes[0] != REFUSED_MAP {
        return read_tag(bytes);
    }
    let n = bytes[1];
    report::is_row_refusal(n as u64).then_some(Reading::Refused(n))
}

/// The row that the bytes begin with, which may stand in a reading. It tests nothing, and is called where `read_row` has tested the bytes
/// before: where both passes test, a report takes twice as long.
fn reading_of(bytes: &[u8]) -> Reading
    requires { bytes_stand bytes.now ≡ true }
    ensures { paper_reading result ≡ row_in bytes.now }
{
    if bytes[0] == REFUSED_MAP {
        return Reading::Refused(bytes[1]);
    }
    let head = head_of(bytes);
    Reading::Tag {
        id: head.id,
        turn: head.turn,
        differing: head.differing,
        corners: quad_at(bytes, head.corners),
    }
}

/// The first pass, over the rows that the first two bytes tell, at most 1,024: reads every row, meets its id, and finds its end, which for
/// the last row is the end of the bytes.
pub fn is_report(report: &[u8], count: usize) -> bool
    requires { (2 ≤ length report.now) × (count ≡ count_in report.now) × (count ≤ most_quads) }
    ensures { result ≡ is_report report.now }
{
    let mut met = Met::none();
    // Rows differ in length: the end of each is where the next one begins.
    let mut at = 2;
    for q in 0..count {
        let Some(row) = read_row(&report[at..]) else {
            return false;
        };
        if met.has(row) {
            return false;
        }
        met.add(row);
        at += report::row_size(row);
    }
    at == report.len()
}

/// The second pass, over a report: puts its rows and their corner numbers at the front of the outputs.
pub fn put_rows(report: &[u8], count: usize, rows: &mut [u64], corners: &mut [f32])
    requires { (2 ≤ length report.now) × (count ≡ count_in report.now) × (is_report report.now ≡ true) × (row_size * count ≤ length rows.old) × (quad_size * count ≤ length corners.old) }
    ensures { PutRows report.now rows.old corners.old rows.new corners.new }
{
    // Rows differ in length: the end of each is where the next one begins.
    let mut at = 2;
    for q in 0..count {
        let row = reading_of(&report[at..]);
        listing::put_row(rows, q, row);
        listing::put_corners(corners, q, row);
        at += report::row_size(row);
    }
}
