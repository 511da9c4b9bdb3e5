//! The lines of a text and the words of a line, as git writes them; a text made of pieces; text without control characters;
//! keys that occur more than once in a list.
#![tactic(auto)]

mod flags;
mod lines;
mod pieces;
mod printable;

pub use flags::{first_flags, mark};
pub use lines::{line_words, text_lines, text_pieces, without_line_end};
pub use pieces::append;
pub use printable::{visible, visible_char};
