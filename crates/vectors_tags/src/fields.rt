//! Fields of frames that stand for a value of the tags' crates.
use grid::Grid;
use painter::Print;
use refusals::Frame;
use tables::Family;
use vectors::Fields;

/// What is read from a frame here, beside what the library reads.
pub trait TagFields {
    /// What a call answers that gives a word: 0 and the word, or a refusal's number and a word of 0. No call answers a number
    /// beside another word.
    fn word(&mut self) -> Option<Result<u64, u8>>;

    /// A frame in three numbers of eight bytes.
    fn frame(&mut self) -> Frame;

    /// A table's edge, border and match threshold, in three bytes.
    fn family(&mut self) -> Family;

    /// How the tags of a sheet stand, in three numbers of eight bytes.
    fn grid(&mut self) -> Grid;

    /// Where a tag is printed, and how, in three numbers of eight bytes and three of one.
    fn print(&mut self) -> Print;

    /// The same in six numbers of one byte.
    fn small_print(&mut self) -> Print;
}

impl TagFields for Fields<'_> {
    fn word(&mut self) -> Option<Result<u64, u8>> {
        match (self.u8(), self.u64()) {
            (0, word) => Some(Ok(word)),
            (number, 0) => Some(Err(number)),
            _ => None,
        }
    }

    fn frame(&mut self) -> Frame {
        Frame {
            width: self.u64() as usize,
            height: self.u64() as usize,
            pitch: self.u64() as usize,
        }
    }

    fn family(&mut self) -> Family {
        Family {
            edge: self.u8(),
            border: self.u8(),
            hamming_distance: self.u8(),
        }
    }

    fn grid(&mut self) -> Grid {
        Grid {
            rows: self.u64() as usize,
            columns: self.u64() as usize,
            gap: self.u64() as usize,
        }
    }

    fn print(&mut self) -> Print {
        Print {
            x: self.u64() as usize,
            y: self.u64() as usize,
            cell: self.u64() as usize,
            turn: self.u8(),
            light: self.u8(),
            dark: self.u8(),
        }
    }

    fn small_print(&mut self) -> Print {
        Print {
            x: usize::from(self.u8()),
            y: usize::from(self.u8()),
            cell: usize::from(self.u8()),
            turn: self.u8(),
            light: self.u8(),
            dark: self.u8(),
        }
    }
}
