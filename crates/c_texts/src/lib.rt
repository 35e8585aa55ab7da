// Texts of a run of C: reading them through pointers, their cells, and what is asked of their bytes.
#![tactic(auto)]

mod bytes;
mod cells;
mod lines;
mod numbers;
mod reading;
#[cfg(test)]
mod tests;

pub use bytes::{compare, compare_optional, is_back, is_front, place_in};
pub use cells::{low_byte, push_text};
pub use lines::{before_zero, behind_line, line_of};
pub use numbers::{is_digit, number_read};
pub use reading::{cells_from, no_pointer, optional_text, text_of, text_up_to};
