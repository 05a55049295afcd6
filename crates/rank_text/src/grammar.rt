//! Tokens, expressions and the forms of lines of a rank program's text.
//!
//! A line is cut into tokens ([`tokens`]), and the tokens are read as a statement
//! ([`forms::form`]) with its expressions. Each of the three is proved against a
//! grammar, both ways; blocks, declarations and limits belong to the crates above.
pub mod form;
pub mod forms;
mod lexer;
pub mod misfit;
pub mod name;
mod reader;
pub mod token;
pub mod words;
pub mod written;

pub use form::{Form, Pattern, Payload};
pub use forms::law_one_form;
pub use lexer::{law_one_lexing, tokens};
pub use misfit::{Expected, Misfit};
pub use name::Name;
pub use reader::{expression, expression_at, law_one_expression};
pub use token::{Keyword, Operator, Reading, Reduction, Token};
pub use written::Written;
