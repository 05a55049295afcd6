//! What a line asks for, or its lowest fault.
ghost use Rattle.std.specs.Prelude.{◌≡◌, None, Some, IfOk, IfErr, OnOk};
ghost use Rattle.rank_text.specs.Lines.Pieces.{words_of};
ghost use Rattle.rank_text.specs.Scripts.Form.{form_of};
ghost use Rattle.rank_text.specs.Scripts.Script.{order_by, fault_of};
ghost use Rattle.rank_text.specs.Scripts.Seen.{form_fault};

use crate::lines::is_skipped;
use crate::script::fault::ScriptFaultKind;
use crate::script::form::form_of;
use crate::script::line::ScriptLine;
use limits::{GREATEST_CLOCK, MOST_SCRIPT_LINES};

/// What a line that isn't skipped asks for in a run of so many ranks.
fn ask(line: &[u8], ranks: u8) -> Result<ScriptLine, ScriptFaultKind>
    ensures order { IfOk result (λ order. form_of (words_of line.now) ≡ Some order) }
    ensures faultless { OnOk result (form_fault ranks (form_of (words_of line.now)) ≡ None) }
    ensures fault { IfErr result (λ kind. form_fault ranks (form_of (words_of line.now)) ≡ Some kind) }
{
    let Some(form) = form_of(line) else {
        return Err(ScriptFaultKind::BadLine);
    };
    if form.clock < 1 || GREATEST_CLOCK < form.clock {
        return Err(ScriptFaultKind::BadLine);
    }
    if form.rank >= u32::from(ranks) {
        return Err(ScriptFaultKind::BadRank);
    }
    Ok(ScriptLine {
        rank: form.rank as u8,
        clock: form.clock,
        order: form.order,
    })
}

/// What the line of this number asks for in a run of so many ranks, nothing where
/// it is skipped, or its lowest fault.
pub(crate) fn judge(
    line: &[u8],
    number: usize,
    ranks: u8,
) -> Result<Option<ScriptLine>, ScriptFaultKind>
    ensures order { IfOk result (λ order. order_by line.now ≡ order) }
    ensures faultless { OnOk result (fault_of ranks number line.now ≡ None) }
    ensures fault { IfErr result (λ kind. fault_of ranks number line.now ≡ Some kind) }
{
    let order = if is_skipped(line) {
        None
    } else {
        Some(ask(line, ranks)?)
    };
    if number > MOST_SCRIPT_LINES {
        return Err(ScriptFaultKind::Limit);
    }
    Ok(order)
}
