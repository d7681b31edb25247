//! Replays what the original's turn, search, levels, corner test and quad reader answered, its families, lists of quads, paintings of
//! tags and sheets, the limits of documents 01 and 02, searches with their count of codes compared, and pictures of painted tags under
//! uneven light, against the public entries on tags and, for the latter, `lit_reading`; what has a picture again with filler between
//! its lines. tools/oracle/README.md says how the files were made.
#![tactic(auto)]

mod bit_codes;
mod fields;
mod light;
mod padded;
mod paintings;
mod quads;
mod sheets;
mod words;

use padded::Layout;
use quads::Lent;
use std::io;
use std::rt::Files;
use vectors::frames::{Frames, UnknownKind};
use vectors::{Fields, Tally, large_buffer, load, report};

/// What the frames of a file are about.
#[derive(Clone, Copy, Debug, PartialEq, Eq)]
enum Flow {
    Words,
    Levels,
    Quads,
    Painter,
}

impl Flow {
    /// Whether the entry answers what a frame says. A match, since each flow takes other things.
    fn is_alike(self, frame: &[u8], lent: Lent) -> Result<bool, UnknownKind> {
        match self {
            Flow::Words => words::is_alike(frame, lent.frame),
            Flow::Levels => bit_codes::is_alike(frame),
            Flow::Quads => quads::is_alike(frame, lent),
            Flow::Painter => Ok(paintings::is_alike(frame, lent.layout)),
        }
    }

    /// Counts the frames of a file. The first byte of a frame is its kind; one of kind 0 lends a table or a picture to those after
    /// it, and one of a kind that is not known is not alike.
    fn replay(self, file: &[u8], layout: Layout) -> Tally {
        let mut tally = Tally::new();
        let mut lent = Lent { frame: &[], layout };
        for frame in Frames::new(file) {
            if Fields::new(frame.bytes).u8() == 0 {
                lent.frame = frame.bytes;
            } else {
                let answer = self.is_alike(frame.bytes, lent);
                tally.add(answer.unwrap_or(false), frame.at);
            }
        }
        tally
    }
}

/// The files, in the order in which they are replayed.
const FILES: [(Flow, &[u8]); 19] = [
    (Flow::Words, b"rotate_bits"),
    (Flow::Words, b"t16h5"),
    (Flow::Words, b"t25h7"),
    (Flow::Words, b"t25h9"),
    (Flow::Words, b"t36h11"),
    (Flow::Words, b"t36h11b1"),
    (Flow::Words, b"lent"),
    (Flow::Words, b"limits"),
    (Flow::Words, b"likeness"),
    (Flow::Words, b"compared"),
    (Flow::Levels, b"bit_code"),
    (Flow::Quads, b"corners"),
    (Flow::Quads, b"readings"),
    (Flow::Quads, b"lists"),
    (Flow::Quads, b"refusals"),
    (Flow::Quads, b"light"),
    (Flow::Painter, b"paintings"),
    (Flow::Painter, b"prints"),
    (Flow::Painter, b"sheets"),
];

/// Those that have pictures, which are replayed with filler too.
const PICTURES: [(Flow, &[u8]); 6] = [
    (Flow::Quads, b"readings"),
    (Flow::Quads, b"lists"),
    (Flow::Quads, b"light"),
    (Flow::Painter, b"paintings"),
    (Flow::Painter, b"prints"),
    (Flow::Painter, b"sheets"),
];

/// Replays the files one after another, each read into `buffer`.
fn replay_files<R: Files + Print>(
    rt: &R,
    files: &[(Flow, &[u8])],
    layout: Layout,
    buffer: &mut [u8],
) -> io::Result<()> {
    for (flow, name) in files {
        let size = load(rt, name, buffer)?;
        report(rt, name, flow.replay(&buffer[..size], layout))?;
    }
    Ok(())
}

fn main(rt: HostRuntime) -> io::Result<()> {
    let mut buffer = large_buffer();
    replay_files(&rt, &FILES, Layout::Packed, &mut buffer)?;
    for layout in [Layout::Zero, Layout::Full, Layout::Noise, Layout::NextLine] {
        // What is not packed, or has no room so, is replayed as it is and counted too.
        println!(rt; "packed planes again at pitch {layout}:")?;
        replay_files(&rt, &PICTURES, layout, &mut buffer)?;
    }
    Ok(())
}
