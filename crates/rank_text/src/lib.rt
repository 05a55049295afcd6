//! Texts: rank programs and crash scripts, as users write them, and back.
//!
//! `lines` cuts a text into lines, words and numbers. `grammar` has the tokens and the
//! forms of a program's lines, `checker` says which texts are programs and names the
//! first fault, and `printer` writes the canonical text. `script` reads crash scripts.
//! `text_writer` is for texts of which no contract speaks.
#![tactic(auto)]

pub mod checker;
pub mod grammar;
pub mod lines;
pub mod printer;
pub mod script;
pub mod text_writer;
