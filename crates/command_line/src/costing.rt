//! In which form the words of `run` ask for what its recoveries cost.
use crate::argument::{Argument, FLAG};

/// In which form the costs of a run are printed, behind its report.
#[derive(Clone, Copy)]
pub enum CostForm {
    /// They aren't printed.
    Unasked,
    /// A table, with a line for each rank and one for their sum.
    Table,
    /// JSON, with an object for each rank and one for their sum.
    Json,
}

/// Whether costs are asked for.
pub const COSTS: Argument = Argument {
    name: "costs",
    help: "Prints what recoveries cost, behind the report (below)",
    ..FLAG
};

/// Whether they are asked for as JSON.
pub const COSTS_AS_JSON: Argument = Argument {
    name: "json",
    help: "Prints the costs as JSON, an object a line",
    with: Some("costs"),
    ..FLAG
};
