//! A text is read line by line.
ghost use Rattle.std.specs.Prelude.{◌≡◌, ◌<◌, ◌≤◌, [], Some, None, IfOk, IfErr, IfSome, OnOk, false, slice_get};
ghost use Rattle.limits.specs.Limits.{greatest_sender, most_ranks};
ghost use Rattle.outcomes.specs.Text.Forms.{form_of, IsFit};
ghost use Rattle.outcomes.specs.Text.Texts.{all_ended, entry_of, fault_of, form_by, form_fault, is_foreign, line_fault, progress_of, with_form, AreProgress};
ghost use Rattle.event_logger.specs.Sequential.Event.{event_of, IsEvent};
ghost use Rattle.rank_text.specs.Lines.Pieces.{words_of};

use crate::text::fault::OutcomeFaultKind;
use crate::text::form::{Entry, LineForm, LinePart};
use crate::text::line::form_of;
use crate::text::progress::{RankSoFar, is_of_stranger};
use event_logger::{Event, Kind};
use limits::{Heap, MOST_EVENT_LINES};
use rank_text::lines::is_skipped;
use std::alloc::AllocError;

/// What the lines so far say.
#[derive(Drop)]
pub(crate) struct LinesRead {
    pub(crate) entries: Vec<Entry, Heap>,
    /// By rank.
    pub(crate) progress: Vec<RankSoFar, Heap>,
}

impl LinesRead {
    /// Of no line.
    pub(crate) fn new(alloc: Heap, ranks: u8) -> Result<LinesRead, AllocError>
        ensures none { IfOk result (λ reading. reading.entries.items ≡ []) }
        ensures progress { IfOk result (λ reading. AreProgress ranks [] reading.progress.items) }
    {
        let none = RankSoFar {
            clock: 0,
            ended: false,
        };
        let progress = vec![in alloc; none; usize::from(ranks)]?;
        Ok(LinesRead {
            entries: Vec::new(alloc),
            progress,
        })
    }

    /// The form of the line of this number, nothing where it is skipped, or its
    /// lowest fault.
    pub(crate) fn judge(
        &self,
        line: &[u8],
        number: usize,
        ranks: u8,
    ) -> Result<Option<LineForm>, OutcomeFaultKind>
        requires { AreProgress ranks self.now.entries.items self.now.progress.items }
        ensures form { IfOk result (λ form. form_by line.now ≡ form) }
        ensures rank { IfOk result (λ form. IfSome form (λ form. is_foreign ranks form ≡ false)) }
        ensures fit { IfOk result (λ form. IfSome form (λ form. IsFit form.part)) }
        ensures faultless { OnOk result (fault_of ranks self.now.entries.items number line.now ≡ None) }
        ensures fault { IfErr result (λ kind. fault_of ranks self.now.entries.items number line.now ≡ Some kind) }
    {
        let form = if is_skipped(line) {
            None
        } else {
            Some(self.said(line, ranks)?)
        };
        if number > MOST_EVENT_LINES {
            return Err(OutcomeFaultKind::Limit);
        }
        Ok(form)
    }

    fn said(&self, line: &[u8], ranks: u8) -> Result<LineForm, OutcomeFaultKind>
        requires { AreProgress ranks self.now.entries.items self.now.progress.items }
        ensures form { IfOk result (λ form. form_of (words_of line.now) ≡ Some form) }
        ensures rank { IfOk result (λ form. is_foreign ranks form ≡ false) }
        ensures fit { IfOk result (λ form. IsFit form.part) }
        ensures faultless { OnOk result (line_fault ranks self.now.entries.items (form_of (words_of line.now)) ≡ None) }
        ensures fault { IfErr result (λ kind. line_fault ranks self.now.entries.items (form_of (words_of line.now)) ≡ Some kind) }
    {
        let Some(form) = form_of(line) else {
            return Err(OutcomeFaultKind::BadLine);
        };
        if is_foreign(ranks, form) {
            return Err(OutcomeFaultKind::BadRank);
        }
        match self.progress_of(form.rank as u8, ranks).fault(form.part) {
            Some(kind) => Err(kind),
            None => Ok(form),
        }
    }

    fn progress_of(&self, rank: u8, ranks: u8) -> RankSoFar
        requires rank { rank < ranks }
        requires progress { AreProgress ranks self.now.entries.items self.now.progress.items }
        ensures value { result ≡ progress_of rank self.now.entries.items }
        ensures there { slice_get self.now.progress.items rank ≡ Some result }
    {
        self.progress[usize::from(rank)]
    }

    /// Notes what the line of this number says. An `Err` means out of memory.
    #[tactic(auto, using(crate::proofs::TextLaws::Following::one_more))]
    pub(crate) fn add(&mut self, form: LineForm, number: usize, ranks: u8) -> Result<(), AllocError>
        requires few { ranks ≤ most_ranks }
        requires rank { is_foreign ranks form ≡ false }
        requires fit { IsFit form.part }
        requires progress { AreProgress ranks self.old.entries.items self.old.progress.items }
        ensures entries { OnOk result (self.new.entries.items ≡ with_form self.old.entries.items number (Some form)) }
        ensures progress { OnOk result (AreProgress ranks self.new.entries.items self.new.progress.items) }
    {
        let rank = form.rank as u8;
        let progress = self.progress_of(rank, ranks).after(form.part);
        let entry = entry_of(form, number, ranks);
        self.entries.push(entry)?;
        self.progress[usize::from(rank)] = progress;
        Ok(())
    }

    /// Whether each rank has its end.
    #[tactic(auto, using(crate::proofs::TextLaws::Following::not_all))]
    pub(crate) fn all_ended(&self, ranks: u8) -> bool
        requires { AreProgress ranks self.now.entries.items self.now.progress.items }
        ensures { result ≡ all_ended ranks self.now.entries.items }
    {
        let mut rank = 0;
        while rank < ranks {
            if !self.progress_of(rank, ranks).ended {
                return false;
            }
            rank += 1;
        }
        true
    }
}

fn is_foreign(ranks: u8, form: LineForm) -> bool
    ensures { result ≡ is_foreign ranks form }
{
    form.rank >= u32::from(ranks) || is_of_stranger(ranks, form.part)
}

fn entry_of(form: LineForm, number: usize, ranks: u8) -> Entry
    requires few { ranks ≤ most_ranks }
    requires rank { is_foreign ranks form ≡ false }
    requires fit { IsFit form.part }
    ensures { result ≡ entry_of number form }
{
    let rank = form.rank as u8;
    match form.part {
        LinePart::Event {
            kind,
            source,
            sent,
            clock,
        } => Entry::Event {
            line: number,
            rank,
            event: event_of(kind, source, sent, clock),
        },
        LinePart::Print { clock, value } => Entry::Print {
            line: number,
            rank,
            clock,
            value,
        },
        LinePart::End(end) => Entry::End {
            line: number,
            rank,
            end,
        },
    }
}

fn event_of(kind: Kind, source: u32, sent: u32, clock: u32) -> Event
    requires low { source ≤ greatest_sender }
    requires fit { IsEvent (event_of kind source sent clock) }
    ensures { result ≡ event_of kind source sent clock }
{
    match Event::new(kind, source as u8, sent, clock) {
        Some(event) => event,
        None => unreachable!(),
    }
}
