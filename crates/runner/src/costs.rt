//! What the program prints of a run's costs: a table or JSON, with a line for each
//! rank and one for their sum.
ghost use Rattle.std.specs.Prelude.{◌≡◌, ◌++◌, ◌<◌, length, OnOk, string_bytes};
ghost use Rattle.runner.specs.CostsText.{both, both_costs, both_sizes, line_at, no_line, sum_below};
ghost use Rattle.runner.specs.CostsText.{all_text, calls_text, cell_text, cells, cells_text, costs_text, head_text, kept_text, member};
ghost use Rattle.runner.specs.CostsText.{members_text, object_text, objects_below, objects_text, right_in};
ghost use Rattle.runner.specs.CostsText.{row_text, rows_below, sum_text, table_text, work_text};
ghost use Rattle.rank_threads.specs.Causes.{events_at};

use audit::Outcome;
use command_line::CostForm;
use limits::Heap;
use rank_threads::{Costs, LogSize, Report};
use std::alloc::AllocError;
use std::fmt::Write;

const HEAD: &str =
    "rank    acts   again    sent   again    asks notices  events  images   bytes    kept   bytes    most   bytes dropped\n";

/// What a line says: what the recoveries of a rank cost, and how many events it
/// has stored.
#[derive(Clone, Copy)]
pub struct CostLine {
    costs: Costs,
    events: u64,
}

impl CostLine {
    fn none() -> CostLine
        ensures { result ≡ no_line }
    {
        CostLine {
            costs: Costs::none(),
            events: 0,
        }
    }

    // Both together. A sum of 2^64 or more counts as 2^64 - 1.
    fn with(self, other: CostLine) -> CostLine
        ensures { result ≡ both self other }
    {
        CostLine {
            costs: sum_costs(self.costs, other.costs),
            events: self.events.saturating_add(other.events),
        }
    }
}

/// Writes the costs of the report's run in this form.
pub fn print_costs(
    text: &mut String<Heap>,
    form: CostForm,
    report: &Report,
) -> Result<(), AllocError>
    ensures { OnOk result (string_bytes text.new ≡ string_bytes text.old ++ costs_text form report.now) }
{
    match form {
        CostForm::Unasked => Ok(()),
        CostForm::Table => print_table(text, report),
        CostForm::Json => print_objects(text, report),
    }
}

fn print_table(text: &mut String<Heap>, report: &Report) -> Result<(), AllocError>
    ensures { OnOk result (string_bytes text.new ≡ string_bytes text.old ++ table_text report.now) }
{
    print_head(text)?;
    print_rows(text, report)?;
    print_sum(text, sum_of(report))
}

#[tactic(auto, unfolding(crate::specs::CostsText::head_text))]
fn print_head(text: &mut String<Heap>) -> Result<(), AllocError>
    ensures { OnOk result (string_bytes text.new ≡ string_bytes text.old ++ head_text) }
{
    text.push_str(HEAD)
}

fn print_rows(text: &mut String<Heap>, report: &Report) -> Result<(), AllocError>
    ensures { OnOk result (string_bytes text.new ≡ string_bytes text.old ++ rows_below (length report.now.costs.items) report.now) }
{
    for rank in 0..report.costs.len() {
        print_row(text, rank, line_of(report, rank))?;
    }
    Ok(())
}

#[tactic(auto, unfolding(crate::specs::CostsText::row_text))]
fn print_row(text: &mut String<Heap>, rank: usize, line: CostLine) -> Result<(), AllocError>
    ensures { OnOk result (string_bytes text.new ≡ string_bytes text.old ++ row_text rank line) }
{
    put_right(text, rank as u64, 4)?;
    print_cells(text, &cells_of(line))
}

#[tactic(auto, unfolding(crate::specs::CostsText::sum_text))]
fn print_sum(text: &mut String<Heap>, line: CostLine) -> Result<(), AllocError>
    ensures { OnOk result (string_bytes text.new ≡ string_bytes text.old ++ sum_text line) }
{
    text.push_str(" sum")?;
    print_cells(text, &cells_of(line))
}

#[tactic(auto, unfolding(crate::specs::CostsText::cells_text))]
fn print_cells(text: &mut String<Heap>, cells: &[u64]) -> Result<(), AllocError>
    ensures { OnOk result (string_bytes text.new ≡ string_bytes text.old ++ cells_text cells.now) }
{
    let mut rest = cells;
    while let [cell, more @ ..] = rest {
        print_cell(text, *cell)?;
        rest = more;
    }
    text.push_str("\n")
}

#[tactic(auto, unfolding(crate::specs::CostsText::cell_text))]
fn print_cell(text: &mut String<Heap>, cell: u64) -> Result<(), AllocError>
    ensures { OnOk result (string_bytes text.new ≡ string_bytes text.old ++ cell_text cell) }
{
    text.push_str(" ")?;
    put_right(text, cell, 7)
}

// The numbers of a line, from left to right.
#[tactic(auto, unfolding(crate::specs::CostsText::cells))]
fn cells_of(line: CostLine) -> [u64; 14]
    ensures { result ≡ cells line }
{
    let CostLine { costs, events } = line;
    [
        costs.acts,
        costs.acts_again,
        costs.messages,
        costs.messages_again,
        costs.asks,
        costs.notices,
        events,
        costs.images,
        costs.image_bytes,
        costs.kept.messages,
        costs.kept.bytes,
        costs.kept_most.messages,
        costs.kept_most.bytes,
        costs.dropped,
    ]
}

fn print_objects(text: &mut String<Heap>, report: &Report) -> Result<(), AllocError>
    ensures { OnOk result (string_bytes text.new ≡ string_bytes text.old ++ objects_text report.now) }
{
    for rank in 0..report.costs.len() {
        print_object(text, rank, line_of(report, rank))?;
    }
    print_all(text, report.costs.len(), sum_of(report))
}

#[tactic(auto, unfolding(crate::specs::CostsText::object_text))]
fn print_object(text: &mut String<Heap>, rank: usize, line: CostLine) -> Result<(), AllocError>
    ensures { OnOk result (string_bytes text.new ≡ string_bytes text.old ++ object_text rank line) }
{
    write!(text, "{{\"rank\":{rank}")?;
    print_members(text, line)
}

#[tactic(auto, unfolding(crate::specs::CostsText::all_text))]
fn print_all(text: &mut String<Heap>, ranks: usize, line: CostLine) -> Result<(), AllocError>
    ensures { OnOk result (string_bytes text.new ≡ string_bytes text.old ++ all_text ranks line) }
{
    write!(text, "{{\"ranks\":{ranks}")?;
    print_members(text, line)
}

#[tactic(auto, unfolding(crate::specs::CostsText::members_text))]
fn print_members(text: &mut String<Heap>, line: CostLine) -> Result<(), AllocError>
    ensures { OnOk result (string_bytes text.new ≡ string_bytes text.old ++ members_text line) }
{
    let CostLine { costs, events } = line;
    print_work(text, costs)?;
    print_calls(text, costs, events)?;
    print_kept(text, costs)?;
    put_member(text, "dropped", costs.dropped)?;
    text.push_str("}\n")
}

fn print_work(text: &mut String<Heap>, costs: Costs) -> Result<(), AllocError>
    ensures { OnOk result (string_bytes text.new ≡ string_bytes text.old ++ work_text costs) }
{
    put_member(text, "acts", costs.acts)?;
    put_member(text, "acts_again", costs.acts_again)?;
    put_member(text, "sent", costs.messages)?;
    put_member(text, "sent_again", costs.messages_again)
}

fn print_calls(text: &mut String<Heap>, costs: Costs, events: u64) -> Result<(), AllocError>
    ensures { OnOk result (string_bytes text.new ≡ string_bytes text.old ++ calls_text costs events) }
{
    put_member(text, "asks", costs.asks)?;
    put_member(text, "notices", costs.notices)?;
    put_member(text, "events", events)?;
    put_member(text, "images", costs.images)?;
    put_member(text, "image_bytes", costs.image_bytes)
}

fn print_kept(text: &mut String<Heap>, costs: Costs) -> Result<(), AllocError>
    ensures { OnOk result (string_bytes text.new ≡ string_bytes text.old ++ kept_text costs) }
{
    put_member(text, "kept", costs.kept.messages)?;
    put_member(text, "kept_bytes", costs.kept.bytes)?;
    put_member(text, "most", costs.kept_most.messages)?;
    put_member(text, "most_bytes", costs.kept_most.bytes)
}

// Writes a member of an object, behind another one.
#[tactic(auto, unfolding(crate::specs::CostsText::member))]
fn put_member(text: &mut String<Heap>, name: &str, number: u64) -> Result<(), AllocError>
    ensures { OnOk result (string_bytes text.new ≡ string_bytes text.old ++ member name.now number) }
{
    write!(text, ",\"{name}\":{number}")
}

// Writes the number, with spaces before it up to this width.
#[tactic(auto, using(crate::proofs::CostLemmas::padded_right))]
fn put_right(text: &mut String<Heap>, number: u64, width: usize) -> Result<(), AllocError>
    ensures { OnOk result (string_bytes text.new ≡ string_bytes text.old ++ right_in width number) }
{
    write!(text, "{number:>width$}")
}

// What the recoveries of all ranks cost.
fn sum_of(report: &Report) -> CostLine
    ensures { result ≡ sum_below (length report.now.costs.items) report.now }
{
    let mut sum = CostLine::none();
    for rank in 0..report.costs.len() {
        sum = sum.with(line_of(report, rank));
    }
    sum
}

// What they cost this rank.
fn line_of(report: &Report, rank: usize) -> CostLine
    requires { rank < length report.now.costs.items }
    ensures { result ≡ line_at report.now rank }
{
    CostLine {
        costs: report.costs[rank],
        events: events_in(&report.outcome, rank),
    }
}

// How many events the rank has stored.
#[tactic(auto, using(crate::proofs::CostLemmas::row_there, crate::proofs::CostLemmas::row_past))]
fn events_in(outcome: &Outcome, rank: usize) -> u64
    ensures { result ≡ events_at outcome.now.rows rank }
{
    if rank >= outcome.rows.len() {
        return 0;
    }
    outcome.rows[rank].len() as u64
}

// Both together, each count up to the greatest `u64`.
fn sum_costs(one: Costs, other: Costs) -> Costs
    ensures { result ≡ both_costs one other }
{
    Costs {
        acts: one.acts.saturating_add(other.acts),
        acts_again: one.acts_again.saturating_add(other.acts_again),
        messages: one.messages.saturating_add(other.messages),
        messages_again: one.messages_again.saturating_add(other.messages_again),
        asks: one.asks.saturating_add(other.asks),
        notices: one.notices.saturating_add(other.notices),
        images: one.images.saturating_add(other.images),
        image_bytes: one.image_bytes.saturating_add(other.image_bytes),
        kept: sum_sizes(one.kept, other.kept),
        kept_most: sum_sizes(one.kept_most, other.kept_most),
        dropped: one.dropped.saturating_add(other.dropped),
    }
}

fn sum_sizes(one: LogSize, other: LogSize) -> LogSize
    ensures { result ≡ both_sizes one other }
{
    LogSize {
        messages: one.messages.saturating_add(other.messages),
        bytes: one.bytes.saturating_add(other.bytes),
    }
}
