// Characters and texts: which characters a family name may hold, what is a prime, what is white space, and UTF-8.

#![tactic(auto)]

pub mod chars;
mod classes;
pub mod utf8;

pub use chars::{classify, is_family_char, is_latin_letter, is_prime, is_whitespace};
pub use utf8::{
    char_width, code_point, family_end, has_curly_prime, is_utf8, whitespace_end, whitespace_width,
};
