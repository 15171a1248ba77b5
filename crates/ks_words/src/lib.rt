//! The words of the command line: what the program is asked for.
#![tactic(auto)]

mod commands;
mod laws;
mod reader;
mod words;

pub use commands::number_between;
pub use laws::{
    check_is_one_word, drill_takes_two_numbers, password_has_ten_thousand_rounds,
    rotate_leaves_three, serve_has_four_workers, setup_is_two_words, talk_is_three_words,
};
pub use words::{Places, Words, read_words};
