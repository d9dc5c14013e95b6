//! Lines of text: read from a source, put together in place, gathered into pieces, and printed.
#![tactic(auto)]

mod buffer;
mod line;
mod printer;
mod reader;
mod report;

pub use line::{
    LINE_ROOM, LineBuffer, PIECE_ROOM, PieceBuffer, TextBuffer, TextLine, put_line, put_number,
};
pub use printer::{Pieces, Printer};
pub use reader::{Line, LineFault, LineReader};
pub use report::print_report;
