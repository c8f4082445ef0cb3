// Recordings as text, for people to read and to edit: words to lines (specs/Text.antt), and text to words (specs/Reading.antt). What is
// written reads back as the same words (proofs/Back.antt).
#![tactic(auto)]

pub mod read;
pub mod trace;
pub mod write;
