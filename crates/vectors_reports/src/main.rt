//! Replays readings that are written as reports and reports that are read again against the public entries on reports: what each call
//! answers, and every number of its outputs afterwards. What one entry accepts the other takes back to where it came from.
//! tools/oracle/README.md says how the files were made.
#![tactic(auto)]

mod calls;
mod damage;
mod given;

use calls::Outcome;
use given::{Form, Given};
use std::io;
use vectors::frames::UnknownKind;
use vectors::{Fields, replay};

#[derive(Clone, Copy, Debug, PartialEq, Eq)]
enum Kind {
    /// A reading to be written.
    Writing(Form),
    /// A report to be read.
    Reading,
    /// A small report that is damaged.
    Damage,
}

impl From<u8> for Kind {
    /// Each number has a kind: all but 1, 3 and 4 are that of a reading by a seed.
    fn from(number: u8) -> Self {
        match number {
            1 => Kind::Writing(Form::Each),
            3 => Kind::Reading,
            4 => Kind::Damage,
            _ => Kind::Writing(Form::Seed),
        }
    }
}

/// A reading to be written, behind its lengths and that of the output.
fn is_writing_alike(form: Form, mut fields: Fields) -> bool {
    let expected = Outcome::read(&mut fields);
    let a = usize::from(fields.u16()).min(4104);
    let b = usize::from(fields.u16()).min(8208);
    let room = usize::from(fields.u16());
    let given = Given::new(form, fields, a);
    let rows = given.rows();
    let corners = given.corners();
    let mut report = calls::before::<u8, 65536>();
    let got = calls::write_and_back(&rows[..a], &corners[..b], &mut report[..room]);
    Some(got) == expected
}

/// A report to be read, behind the lengths of the outputs.
fn is_reading_alike(mut fields: Fields) -> bool {
    let mut rows = calls::before::<u64, 4104>();
    let mut corners = calls::before::<f32, 8208>();
    let mut own = calls::before::<u8, 65536>();
    let expected = Outcome::read(&mut fields);
    let rows = &mut rows[..usize::from(fields.u16()).min(4104)];
    let corners = &mut corners[..usize::from(fields.u16()).min(8208)];
    Some(calls::read_and_back(fields.rest(), rows, corners, &mut own)) == expected
}

/// Whether the entries answer what a frame says. No kind of frame is unknown here.
fn is_alike(frame: &[u8]) -> Result<bool, UnknownKind> {
    let mut fields = Fields::new(frame);
    Ok(match Kind::from(fields.u8()) {
        Kind::Writing(form) => is_writing_alike(form, fields),
        Kind::Reading => is_reading_alike(fields),
        Kind::Damage => damage::is_alike(fields),
    })
}

fn main(rt: HostRuntime) -> io::Result<()> {
    let mut buffer = vectors::large_buffer();
    for name in [b"writing".as_slice(), b"reading"] {
        let count = vectors::load(&rt, name, &mut buffer)?;
        vectors::report(&rt, name, replay(&buffer[..count], is_alike))?;
    }
    Ok(())
}
