// Conditions typed as text, one a line: reading a line, and printing an answer.
#![tactic(auto)]

pub mod input;
pub mod print;
pub mod result;
pub mod text;
