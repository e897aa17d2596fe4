//! What the words of a filter ask for: a program that reads one file, or standard input, and puts what it makes of it on
//! standard output.
#![tactic(auto)]

mod words;

pub use words::read_words;
