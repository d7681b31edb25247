//! The tables whose tags are painted: the five families by their numbers, and two of our own, which are no family's.
ghost use Rattle.std.specs.Prelude.{◌<◌};

use tables::Family;

/// Words of 64 modules that differ in at least 17 of them, in all turns.
const EDGE_8: [u64; 12] = [
    0x1000_4106_0c01_1441,
    0x9b1e_842f_6e86_2629,
    0xf554_f503_555d_8025,
    0x860c_1fb0_9059_9265,
    0xf6b0_5302_e553_1801,
    0xa246_0108_ebbd_9e71,
    0xc62c_9fc1_14d9_590d,
    0x7d3e_032e_9a79_08ff,
    0x73a3_97e1_324c_252e,
    0x1cca_c1c3_8a4c_36e4,
    0xefad_64f8_379b_9789,
    0x4e2a_a10f_962c_62e6,
];

/// Words of 9 modules that differ in at least 3 of them, in all turns.
const EDGE_3: [u64; 8] = [46, 51, 107, 205, 209, 242, 405, 452];

/// The rows of a grid, and its columns.
#[derive(Clone, Copy, Debug, PartialEq, Eq)]
pub struct Sides {
    pub rows: usize,
    pub columns: usize,
}

impl Sides {
    pub const fn new(rows: usize, columns: usize) -> Self {
        Sides { rows, columns }
    }
}

/// A table whose tags are painted, and what is tried with it.
#[derive(Clone, Copy)]
pub struct Tried {
    pub name: &'static str,
    /// The number by which it is known, if it is a family.
    pub number: Option<u8>,
    pub family: Family,
    pub codes: &'static [u64],
    /// How many misprints: none below threshold 1, each module below 2, 36 modules and 36 pairs of modules below 3, and eight rows of
    /// modules more below 9.
    pub misprints: usize,
    /// The largest grids are of all codes, but of 580 where they are 587, which is a prime.
    pub grids: [Sides; 3],
}

impl Tried {
    /// The modules in a row of a tag, borders included.
    pub fn side(&self) -> usize {
        self.family.edge as usize + 2 * (self.family.border as usize)
    }
}

/// The family of a number.
fn known(number: u8, name: &'static str, misprints: usize, grids: [Sides; 3]) -> Tried
    requires { number < 5 }
{
    Tried {
        name,
        number: Some(number),
        family: tag_families::family(number),
        codes: tag_families::codes_of(number),
        misprints,
        grids,
    }
}

fn edge_8() -> Tried {
    Tried {
        name: "a table of edge 8",
        number: None,
        family: Family {
            edge: 8,
            border: 1,
            hamming_distance: 9,
        },
        codes: &EDGE_8,
        misprints: 80,
        grids: [Sides::new(3, 4), Sides::new(1, 12), Sides::new(12, 1)],
    }
}

fn edge_3() -> Tried {
    Tried {
        name: "a table of edge 3",
        number: None,
        family: Family {
            edge: 3,
            border: 3,
            hamming_distance: 2,
        },
        codes: &EDGE_3,
        misprints: 9,
        grids: [Sides::new(2, 4), Sides::new(1, 8), Sides::new(8, 1)],
    }
}

/// All tables.
pub fn tables() -> [Tried; 7] {
    let t16h5 = [Sides::new(5, 6), Sides::new(1, 30), Sides::new(30, 1)];
    let t25h7 = [Sides::new(11, 22), Sides::new(22, 11), Sides::new(2, 32)];
    let t25h9 = [Sides::new(5, 7), Sides::new(7, 5), Sides::new(2, 16)];
    let t36h11 = [Sides::new(20, 29), Sides::new(29, 20), Sides::new(2, 32)];
    [
        known(0, "T16H5", 0, t16h5),
        known(1, "T25H7", 25, t25h7),
        known(2, "T25H9", 25, t25h9),
        known(3, "T36H11", 72, t36h11),
        known(4, "T36H11B1", 72, t36h11),
        edge_8(),
        edge_3(),
    ]
}
