//! Tables of cases, by which programs try the calls of other crates.
//!
//! A table is a text file in which each line is a case. Empty lines and those that begin with `#` are passed over. The
//! first other line is the heading, which names the columns. Bars part the cells of a line, and blanks at a cell's ends
//! do not count. The last cell is the answer that is wanted; where it ends with two points, the answer is to begin with
//! what stands before them.
//!
//! In a cell `\r` and `\n` are the ends of lines, `\{TEXT}` is the text as it stands, and `\x{HEX}` are the bytes of the
//! hex digits; with a number behind the backslash, as in `\64{(}` and `\3x{0d0a}`, so many times that. A text there ends
//! at the first closing brace.
//!
//! A cell that begins with `<` and a digit is a response of the server whose head is the usual one, as
//! `<404 Not Found>{"error":..}` and `<405 Method Not Allowed; Allow: GET>{"error":..}`: in the brackets stand its status
//! and its own fields, and behind them its body. Its head has the status, the length and the type of the body, where there
//! is one, `Vary: X-Auth-Token`, and then its own fields.
#![tactic(auto)]

mod case;
mod cells;
mod responses;
mod table;

pub use case::Case;
pub use cells::read_cells;
pub use table::{Row, read_rows, try_table};
