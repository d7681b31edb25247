//! Lists of the starts of one painted tag: each in a list of its own, and several in one, which share their id.
use crate::tags::{Misprint, Shown, Tag};
use crate::tried::Tried;
use points::{QUAD_SIZE, rotate_left};
use refusals::Refusal;
use std::{fmt, io};
use vectors::Tally;
use vectors::answers::Answer;

/// A list of starts: how many, and the start that it begins with. It goes on from corner to corner.
#[derive(Clone, Copy, Debug, PartialEq, Eq)]
struct Starts {
    count: usize,
    first: u8,
}

/// No quad, each start in a list of its own, lists in which each row is refused since they share their id, and one quad too many.
const LISTS: [Starts; 10] = [
    Starts { count: 0, first: 0 },
    Starts { count: 1, first: 0 },
    Starts { count: 1, first: 1 },
    Starts { count: 1, first: 2 },
    Starts { count: 1, first: 3 },
    Starts { count: 2, first: 0 },
    Starts { count: 3, first: 1 },
    Starts {
        count: 1023,
        first: 2,
    },
    Starts {
        count: 1024,
        first: 3,
    },
    Starts {
        count: 1025,
        first: 0,
    },
];

impl Starts {
    /// The start of quad i.
    fn start(self, i: usize) -> u8 {
        ((self.first as usize + i % 4) % 4) as u8
    }

    /// Writes the quads of a painted tag, as many as `quads` has room for.
    fn put(self, shown: &Shown, quads: &mut [f32]) {
        let (quads, _) = quads.as_chunks_mut::<QUAD_SIZE>();
        for (i, numbers) in quads.iter_mut().enumerate() {
            points::put_quad(numbers, 0, rotate_left(shown.quad, self.start(i)));
        }
    }

    /// What row i is to be: the tag, or refused as repeated where another quad gives its id too.
    fn row(self, shown: &Shown, i: usize) -> Answer {
        if self.count < 2 {
            shown.tag.expected(shown.quad, self.start(i))
        } else {
            Answer::refused(Refusal::Repeated.number())
        }
    }

    /// How many of the rows and corners of the list are as they are to be.
    fn count_rows(self, shown: &Shown, rows: &[u64], corners: &[f32]) -> Tally {
        let mut tally = Tally::new();
        // i is the quad's start, and its place in the count.
        for i in 0..self.count {
            tally.add(
                Answer::of_row(rows, corners, i) == Some(self.row(shown, i)),
                i,
            );
        }
        tally
    }

    /// Prints the list, and then reads it and prints how many of its rows are right, or the refusal's number.
    fn read(self, rt: &impl Print, shown: &Shown) -> io::Result<()> {
        let mut quads = [0.0f32; 8200];
        let mut rows = [9u64; 4100];
        let mut corners = [9.0f32; 8200];
        let quads = &mut quads[..QUAD_SIZE * self.count.min(1025)];
        self.put(shown, quads);
        print!(rt; "{self}")?;
        let listed = shown
            .tag
            .read_list(shown.plane, quads, &mut rows, &mut corners);
        match listed {
            Ok(count) => {
                let tally = Starts { count, ..self }.count_rows(shown, &rows, &corners);
                println!(rt; ": {tally}")
            }
            Err(refusal) => println!(rt; " refused by {}", refusal.number()),
        }
    }
}

impl fmt::Display for Starts {
    fn fmt<W: fmt::Write>(&self, f: &mut fmt::Formatter<W>) -> fmt::Result {
        let (count, first) = (self.count, self.first);
        write!(f, "list of {count} from start {first}")
    }
}

/// All lists of one tag.
fn read_lists(rt: &impl Print, tag: Tag, plane: &mut [u8]) -> io::Result<()> {
    let plane = tag.own_plane(plane);
    match tag.paint(plane) {
        Ok(quad) => {
            let shown = Shown { plane, tag, quad };
            for list in LISTS {
                rt.write_all(if tag.misprinted == 0 {
                    b"  ".as_slice()
                } else {
                    b"  misprinted, "
                })?;
                list.read(rt, &shown)?;
            }
            Ok(())
        }
        Err(refusal) => println!(rt; " refused by {}", refusal.number()),
    }
}

/// Lists of one tag of a table, clean, and with the last of its misprints if it has any.
pub fn print(rt: &impl Print, table: &Tried, plane: &mut [u8]) -> io::Result<()> {
    read_lists(rt, Tag::new(table, 7, 2, 1, Misprint::NONE), plane)?;
    if let Some(last) = table.misprints.checked_sub(1) {
        read_lists(rt, Tag::new(table, 7, 2, 1, Misprint::nth(last)), plane)?;
    }
    Ok(())
}
