//! Whether the ranks that are reported as stalled have stalled.
ghost use Rattle.std.specs.Prelude.{◌≡◌, ◌≢◌, ◌+◌, ◌<◌, Some, true, false, IfSome, IsNone, length, slice_get};
ghost use Rattle.crash_free.specs.Sim.{start_of};
ghost use Rattle.audit.specs.FinalRuns.Final.{AreWaiting, HasNotStalled, HasStalled, HaveStalled};
ghost use Rattle.audit.specs.FinalRuns.Stills.{NoneIsThere, OneIsThere};

use crate::End;
use crash_free::Sim;
use matching::Selector;
use rank_machine::Want;

/// The lowest rank that is reported as stalled, and may take or hit a message
/// in the run of a rank that isn't unfinished.
pub fn not_stalled(run: &Sim<'_>, ends: &[End]) -> Option<u8>
    requires { AreWaiting run.now ends.now }
    ensures none { IsNone result → HaveStalled (start_of run.now.program (length run.now.machines)) (length run.now.machines) run.now.run ends.now }
    ensures said { IfSome result (λ rank. slice_get ends.now rank ≡ Some End.Stalled) }
    ensures may { IfSome result (λ rank. HasNotStalled (start_of run.now.program (length run.now.machines)) (length run.now.machines)
        run.now.run ends.now rank) }
{
    let ranks = run.ranks();
    let mut rank = 0;
    while rank < ranks {
        if is_false(run, ends, rank) {
            return Some(rank);
        }
        rank += 1;
    }
    None
}

// Whether the rank is reported as stalled, and may take or hit such a message.
fn is_false(run: &Sim<'_>, ends: &[End], rank: u8) -> bool
    requires rank { rank < length run.now.machines }
    requires waits { AreWaiting run.now ends.now }
    ensures said { result ≡ true → slice_get ends.now rank ≡ Some End.Stalled }
    ensures may { result ≡ true → HasNotStalled (start_of run.now.program (length run.now.machines)) (length run.now.machines) run.now.run ends.now rank }
    ensures no { result ≡ false → slice_get ends.now rank ≡ Some End.Stalled
        → HasStalled (start_of run.now.program (length run.now.machines)) (length run.now.machines) run.now.run ends.now rank }
{
    if !is_said(ends, rank) {
        return false;
    }
    may_go_on(run, ends, rank)
}

// Whether the rank is reported as stalled.
fn is_said(ends: &[End], rank: u8) -> bool
    ensures yes { result ≡ true → slice_get ends.now rank ≡ Some End.Stalled }
    ensures no { result ≡ false → slice_get ends.now rank ≢ Some End.Stalled }
{
    match ends.get(usize::from(rank)) {
        Some(End::Stalled) => true,
        Some(End::Halted | End::Faulted(_) | End::Unfinished) | None => false,
    }
}

// Whether the rank is unfinished.
fn is_unfinished(ends: &[End], rank: u8) -> bool
    ensures yes { result ≡ true → slice_get ends.now rank ≡ Some End.Unfinished }
    ensures no { result ≡ false → slice_get ends.now rank ≢ Some End.Unfinished }
{
    match ends.get(usize::from(rank)) {
        Some(End::Unfinished) => true,
        Some(End::Halted | End::Faulted(_) | End::Stalled) | None => false,
    }
}

// Whether a rank that waits may take or hit a message of a rank that isn't unfinished.
fn may_go_on(run: &Sim<'_>, ends: &[End], rank: u8) -> bool
    requires rank { rank < length run.now.machines }
    requires waits { AreWaiting run.now ends.now }
    requires said { slice_get ends.now rank ≡ Some End.Stalled }
    ensures yes { result ≡ true → HasNotStalled (start_of run.now.program (length run.now.machines)) (length run.now.machines) run.now.run ends.now rank }
    ensures no { result ≡ false → HasStalled (start_of run.now.program (length run.now.machines)) (length run.now.machines) run.now.run ends.now rank }
{
    let _ranks = run.ranks();
    match run.wants(rank) {
        Want::Receive(selector) => is_there(run, ends, rank, &selector),
        Want::Probe(selector) => is_there(run, ends, rank, &selector),
        Want::Internal => false,
        Want::Send { .. } => false,
        Want::TryProbe(_) => false,
        Want::Print(_) => false,
        Want::Halted => false,
        Want::Faulted(_) => false,
    }
}

// Whether a message is eligible for the rank that this selector names, of a rank that isn't
// unfinished.
fn is_there(run: &Sim<'_>, ends: &[End], rank: u8, selector: &Selector) -> bool
    requires { rank < length run.now.machines }
    ensures yes { result ≡ true → OneIsThere run.now ends.now rank selector.now }
    ensures no { result ≡ false → NoneIsThere run.now ends.now rank selector.now (length run.now.machines) }
{
    let ranks = run.ranks();
    let mut source = 0;
    while source < ranks {
        if is_from(run, ends, rank, selector, source) {
            return true;
        }
        source += 1;
    }
    false
}

// The same of this source alone.
fn is_from(run: &Sim<'_>, ends: &[End], rank: u8, selector: &Selector, source: u8) -> bool
    requires rank { rank < length run.now.machines }
    requires source { source < length run.now.machines }
    ensures yes { result ≡ true → OneIsThere run.now ends.now rank selector.now }
    ensures no { result ≡ false → NoneIsThere run.now ends.now rank selector.now source
        → NoneIsThere run.now ends.now rank selector.now (source + 1) }
{
    if is_unfinished(ends, source) {
        return false;
    }
    match run.eligible(rank, selector, source) {
        Some(_) => true,
        None => false,
    }
}
