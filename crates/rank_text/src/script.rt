//! The script of a run: which ranks are killed and which take an image, and at
//! which of their clocks, one order a line.
mod fault;
mod form;
mod judge;
mod laws;
mod line;
mod script;

pub use fault::{ScriptFault, ScriptFaultKind, ScriptParseFault};
pub use laws::law_orders;
pub use line::{Order, ScriptLine};
pub use script::Script;
