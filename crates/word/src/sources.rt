//! Where the bits of a turned square come from: for each place from 0 on the place that its bit had before. The program `turning`
//! prints these tables from the formula.
pub const EDGE_4: [u8; 16] = [3, 7, 11, 15, 2, 6, 10, 14, 1, 5, 9, 13, 0, 4, 8, 12];

pub const EDGE_5: [u8; 25] = [
    4, 9, 14, 19, 24, 3, 8, 13, 18, 23, 2, 7, 12, 17, 22, 1, 6, 11, 16, 21, 0, 5, 10, 15, 20,
];

pub const EDGE_6: [u8; 36] = [
    5, 11, 17, 23, 29, 35, 4, 10, 16, 22, 28, 34, 3, 9, 15, 21, 27, 33, 2, 8, 14, 20, 26, 32, 1, 7,
    13, 19, 25, 31, 0, 6, 12, 18, 24, 30,
];
