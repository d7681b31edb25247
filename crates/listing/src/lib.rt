//! List of quads to rows: each quad of a list is read by itself, and those that give the same id are refused together.
#![tactic(auto)]

ghost use Rattle.std.specs.Prelude.{◌≡◌, false, [], ◌∷◌, ◌+◌, ◌*◌, ◌≤◌, ◌<◌, length, get_or};
ghost use Rattle.std.proofs.lemmas.List.Edits.{sets};
ghost use Rattle.refusals.specs.Outcome.{accepted};
ghost use Rattle.reader.specs.Answer.{paper_reading};
ghost use Rattle.points.specs.Numbers.{quad_size};
ghost use Rattle.listing.specs.Listing.{row_size, bad_list, row_of, corners_of, listing_of, listing};
ghost use Rattle.listing.specs.Steps.{most_ids, Countable, counted, repeated_row, LookedAt};

use points::QUAD_SIZE;
use reader::Reading;
use refusals::{Picture, Refusal};
use tables::checked::Table;

/// The numbers of a row: refusal (0 where there is none), id, turn and differing modules. Rows are numbers, and corners beside them are
/// floats, as document 01 has them and C lends them.
pub const ROW_SIZE: usize = 4;

/// The most quads of a list.
pub const MOST_QUADS: usize = 1024;

/// The most ids: a table has at most so many codes.
pub const MOST_IDS: usize = 1024;

/// Refusal 16, of the lengths of the quad list and the two outputs.
#[tactic(auto, unfolding(crate::specs::Listing::bad_list))]
pub fn bad_list(quads: usize, rows: usize, corners: usize) -> bool
    ensures { result ≡ bad_list quads rows corners }
{
    let count = quads / QUAD_SIZE;
    quads % QUAD_SIZE != 0
        || MOST_QUADS < count
        || rows < ROW_SIZE * count
        || corners < QUAD_SIZE * count
}

/// The row of a quad's reading: refusal, id, turn and differing modules.
fn row_of(reading: Reading) -> [u64; ROW_SIZE]
    ensures { result ≡ row_of (paper_reading reading) }
{
    match reading {
        Reading::Tag {
            id,
            turn,
            differing,
            ..
        } => [0, id as u64, u64::from(turn), u64::from(differing)],
        Reading::Refused(number) => [u64::from(number), 0, 0, 0],
    }
}

/// The corner numbers of a quad's reading: those of the tag, or zeros.
fn corners_of(reading: Reading) -> [f32; QUAD_SIZE]
    ensures { result ≡ corners_of (paper_reading reading) }
{
    match reading {
        Reading::Tag { corners, .. } => corners.into(),
        Reading::Refused(_) => [0.0; QUAD_SIZE],
    }
}

/// Puts a reading's row at row q, number by number: copied as an array, it went to memory first.
pub fn put_row(rows: &mut [u64], q: usize, reading: Reading)
    requires { row_size * q + row_size ≤ length rows.old }
    ensures { rows.new ≡ sets rows.old (row_size * q) (row_of (paper_reading reading)) }
{
    let at = ROW_SIZE * q;
    let [refusal, id, turn, differing] = row_of(reading);
    rows[at] = refusal;
    rows[at + 1] = id;
    rows[at + 2] = turn;
    rows[at + 3] = differing;
}

/// Puts a reading's corner numbers at quad q.
#[tactic(auto, using(points::proofs::Numbers::part_stores, crate::proofs::Sizes::corners_size))]
pub fn put_corners(corners: &mut [f32], q: usize, reading: Reading)
    requires { quad_size * q + quad_size ≤ length corners.old }
    ensures { corners.new ≡ sets corners.old (quad_size * q) (corners_of (paper_reading reading)) }
{
    let at = QUAD_SIZE * q;
    corners[at..at + QUAD_SIZE].copy_from_slice(&corners_of(reading));
}

/// How often each id was given by the quads so far.
#[derive(Drop)]
struct IdCounts {
    times: [u16; MOST_IDS],
}

impl IdCounts {
    /// Counts the id of a reading, if it gives one.
    fn count(&mut self, reading: Reading)
        requires { Countable self.old.times (paper_reading reading) }
        ensures { self.new.times ≡ counted self.old.times (paper_reading reading) }
    {
        if let Reading::Tag { id, .. } = reading {
            self.times[id] += 1;
        }
    }

    /// Whether row q is that of a tag whose id was given more than once.
    fn is_repeated(&self, rows: &[u64], q: usize) -> bool
        requires { (row_size * q + row_size ≤ length rows.now) × (get_or rows.now (row_size * q + 1) 0 < most_ids) }
        ensures { result ≡ repeated_row rows.now self.now.times q }
    {
        let at = ROW_SIZE * q;
        let id = rows[at + 1] as usize;
        rows[at] == 0 && 1 < self.times[id]
    }
}

/// Refuses row q by 18 where its id was given more than once.
fn refuse_repeated(rows: &mut [u64], corners: &mut [f32], counts: &IdCounts, q: usize)
    requires { (row_size * q + row_size ≤ length rows.old) × (quad_size * q + quad_size ≤ length corners.old) × (get_or rows.old (row_size * q + 1) 0 < most_ids) }
    ensures { LookedAt rows.old corners.old counts.now.times q rows.new corners.new }
{
    if counts.is_repeated(rows, q) {
        let repeated = Reading::from(Refusal::Repeated);
        put_row(rows, q, repeated);
        put_corners(corners, q, repeated);
    }
}

/// The readings of a list for lengths that refusal 16 lets through: how many they are. The first pass reads each quad and counts its id, the
/// second one refuses the rows of ids that were given more than once.
pub fn try_decode_quads(
    picture: &Picture,
    table: &Table,
    quads: &[f32],
    rows: &mut [u64],
    corners: &mut [f32],
) -> usize
    requires { bad_list (length quads.now) (length rows.old) (length corners.old) ≡ false }
    ensures { listing_of (accepted result) rows.new corners.new
        ≡ listing picture.now.bytes.now picture.now.frame table.now.family table.now.codes.now quads.now rows.old corners.old }
{
    let count = quads.len() / QUAD_SIZE;
    let mut counts = IdCounts {
        times: [0; MOST_IDS],
    };
    // By number, since row q and corner numbers q are each written at their place.
    for q in 0..count {
        let quad = points::quad_at(quads, q);
        let reading = reader::try_decode_quad(picture, table, quad);
        counts.count(reading);
        put_row(rows, q, reading);
        put_corners(corners, q, reading);
    }
    for p in 0..count {
        refuse_repeated(rows, corners, &counts, p);
    }
    count
}
