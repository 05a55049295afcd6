//! An outcome's text.
ghost use Rattle.std.specs.Prelude.{◌≡◌, ◌≤◌, Err, None, Some, IfOk, OnOk};
ghost use Rattle.limits.specs.Limits.{most_ranks};

use crate::text::fault::{OutcomeFault, OutcomeFaultKind, OutcomeParseFault};
use crate::text::form::Entry;
use crate::text::reading::LinesRead;
use limits::Heap;
use rank_text::lines::next_line;
use std::alloc::AllocError;
use std::marker::Model;

/// What an outcome's text says, line by line. Contracts see the entries, and of how many ranks
/// they are.
#[derive(Drop)]
pub struct OutcomeText {
    pub(crate) ranks: u8,
    pub(crate) entries: Vec<Entry, Heap>,
}

impl Model for OutcomeText {
    ghost use Rattle.outcomes.specs.Text.Outcomes.{TextValue};

    ghost Value = { TextValue };

    ghost view = { λ t. record { ranks = t.ranks; entries = t.entries.items } };
}

impl OutcomeText {
    ghost use Rattle.outcomes.specs.Text.Texts.{entries_of, first_fault};
    ghost use Rattle.outcomes.specs.declared.text.fault.OutcomeFault.{OutcomeFault};
    ghost use Rattle.outcomes.specs.declared.text.fault.OutcomeParseFault.TheVariants.{Fault};

    /// Reads the outcome of a run of `ranks` ranks. The first faulty line decides,
    /// then the lowest number.
    ///
    /// A text is cut at each LF; what follows the last one is a line where it isn't
    /// empty. Blank lines and those that begin with `#` are skipped.
    pub fn parse(alloc: Heap, text: &[u8], ranks: u8) -> Result<OutcomeText, OutcomeParseFault>
        requires { ranks ≤ most_ranks }
        ensures entries { IfOk result (λ read. read.entries ≡ entries_of text.now) }
        ensures ranks { IfOk result (λ read. read.ranks ≡ ranks) }
        ensures faultless { OnOk result (first_fault ranks text.now ≡ None) }
        ensures fault { (fault : OutcomeFault) → result ≡ Err (Fault fault)
            → first_fault ranks text.now ≡ Some fault }
    {
        let Ok(mut reading) = LinesRead::new(alloc, ranks) else {
            return Err(OutcomeParseFault::Memory);
        };
        let mut number = 1;
        let mut rest = text;
        while let Some((line, more)) = next_line(rest) {
            match reading.judge(line, number, ranks) {
                Ok(None) => {}
                Ok(Some(form)) => {
                    let Ok(()) = reading.add(form, number, ranks) else {
                        return Err(OutcomeParseFault::Memory);
                    };
                }
                Err(kind) => return Err(fault_at(number, kind)),
            }
            number += 1;
            rest = more;
        }
        if !reading.all_ended(ranks) {
            return Err(fault_at(number, OutcomeFaultKind::NoEnd));
        }
        Ok(OutcomeText {
            ranks,
            entries: reading.entries,
        })
    }
}

fn fault_at(line: usize, kind: OutcomeFaultKind) -> OutcomeParseFault
    ensures { result ≡ OutcomeParseFault.Fault (record { line = line; kind = kind }) }
{
    OutcomeParseFault::Fault(OutcomeFault { line, kind })
}
