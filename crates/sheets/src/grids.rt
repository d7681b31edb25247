//! The whole sheets of a table: its grids, and the lines that are printed of them.
ghost use Rattle.std.specs.Prelude.{◌≤◌};

use crate::boards::{Board, tags_of};
use crate::tags::{Misprint, Tag};
use crate::tried::{Sides, Tried};
use grid::Grid;
use refusals::packed_frame;
use std::io;
use vectors::answers::number_of;
use vectors::{Tally, product};

/// The grids of every table: four have a side of 0 or 33 tags, and others more tags than the table has codes.
fn sides() -> [Sides; 9] {
    [
        Sides::new(0, 1),
        Sides::new(1, 0),
        Sides::new(33, 1),
        Sides::new(1, 33),
        Sides::new(32, 32),
        Sides::new(12, 12),
        Sides::new(1, 32),
        Sides::new(32, 1),
        Sides::new(1, 1),
    ]
}

/// The gap and the cell of a sheet.
#[derive(Clone, Copy, Debug, PartialEq, Eq)]
struct Spacing {
    gap: usize,
    cell: usize,
}

/// Those of the five sheets of a grid.
const SPACINGS: [Spacing; 5] = [
    Spacing { gap: 1, cell: 1 },
    Spacing { gap: 16, cell: 1 },
    Spacing { gap: 1, cell: 2 },
    Spacing { gap: 16, cell: 2 },
    Spacing { gap: 1, cell: 3 },
];

/// So many tags in a line of the grid, in pixels.
fn length(side: usize, gap: usize, cell: usize, count: usize) -> usize
    ensures { result ≤ 4000 }
{
    let cells = product(side.saturating_add(gap), count, 4000);
    product(cells.saturating_sub(gap), cell, 4000)
}

impl Sides {
    /// Whether the painter takes the grid with so many codes.
    fn is_good(self, codes: usize) -> bool {
        (1..=32).contains(&self.rows)
            && (1..=32).contains(&self.columns)
            && self.rows.saturating_mul(self.columns) <= codes
    }

    /// Sheet p of the grid, at one of the four turns. The grid begins in the plane's first line and column or in its second, and ends
    /// one pixel before the last. Large grids have cells of 1 only.
    fn board<'a>(self, table: &'a Tried, p: usize, spacing: Spacing) -> Board<'a> {
        let Spacing { gap, cell } = spacing;
        let grid = Grid {
            rows: self.rows,
            columns: self.columns,
            gap,
        };
        let cell = if 144 < tags_of(grid) { 1 } else { cell };
        let tag = Tag::new(table, 0, cell, p, Misprint::NONE);
        let side = table.side();
        let x = p % 2;
        let y = p / 2 % 2;
        let wide = length(side, gap, cell, self.columns);
        let high = length(side, gap, cell, self.rows);
        let frame = packed_frame(x + wide + 1, y + high + 1);
        Board {
            grid,
            tag: tag.placed(x, y, frame),
        }
    }

    /// Counts the readings of the sheets of a grid that the painter takes.
    fn count(self, table: &Tried, plane: &mut [u8]) -> Tally {
        let mut tally = Tally::new();
        for (p, spacing) in SPACINGS.iter().enumerate() {
            self.board(table, p, *spacing)
                .paint_and_count(plane, &mut tally);
        }
        tally
    }

    /// Prints the line of the grid: the readings of its sheets or, where the painter does not take it, what refuses the first one.
    fn print(self, rt: &impl Print, table: &Tried, plane: &mut [u8]) -> io::Result<()> {
        let Sides { rows, columns } = self;
        print!(rt; "  sheets of {rows} x {columns}")?;
        if self.is_good(table.codes.len()) {
            println!(rt; ": {}", self.count(table, plane))
        } else {
            let answer = self.board(table, 0, SPACINGS[0]).try_paint(plane);
            println!(rt; " refused by {}", number_of(answer))
        }
    }
}

/// The lines of a table.
pub fn print(rt: &impl Print, table: &Tried, plane: &mut [u8]) -> io::Result<()> {
    for sides in sides().iter().chain(&table.grids) {
        sides.print(rt, table, plane)?;
    }
    Ok(())
}
