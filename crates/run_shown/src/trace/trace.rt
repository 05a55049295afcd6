//! The whole trace, as text and as JSON.
ghost use Rattle.std.specs.Prelude.{◌≡◌, ◌≤◌, IfOk, reverse, string_bytes};
ghost use Rattle.limits.specs.Limits.{most_ranks};
ghost use Rattle.run_shown.specs.Trace.Deliveries.{AreClocked, AreDelivered};
ghost use Rattle.run_shown.specs.Trace.Lines.{BeginsWithActs};
ghost use Rattle.run_shown.specs.Trace.Places.{AreFound};
ghost use Rattle.rank_language.specs.StandOn.{IsLinedOf};

use crate::trace::acts::put_acts;
use crate::trace::circles::put_circles;
use crate::trace::deliveries::{Delivery, deliveries_of};
use crate::trace::ends::put_ends;
use crate::trace::fates::{Fated, fates_of};
use crate::trace::given::{Given, Told};
use crate::trace::json::json_of;
use crate::trace::left::put_unreceived;
use crate::trace::orders::{put_crashes, put_unmet};
use crate::trace::place::Place;
use crate::trace::places::places_of;
use crash_free::Sim;
use limits::Heap;
use rank_language::Program;
use rank_text::text_writer::TextWriter;
use std::alloc::AllocError;

/// What is found of the acts of a run, by their index, and of the lines of its
/// script.
#[derive(Drop)]
struct ActDetails {
    places: Vec<Place, Heap>,
    deliveries: Vec<Delivery, Heap>,
    orders: Vec<Fated, Heap>,
}

impl ActDetails {
    #[tactic(auto, using(crate::proofs::TraceLaws::PlacesLemmas::of_ranks, crate::proofs::TraceLaws::PlacesLemmas::clocked))]
    fn of(
        alloc: Heap,
        program: &Program,
        ranks: u8,
        run: &Sim<'_>,
        given: Given<'_>,
    ) -> Result<ActDetails, AllocError>
        requires some { 1 ≤ ranks }
        requires few { ranks ≤ most_ranks }
        ensures places { IfOk result (λ found. AreFound program.now ranks (reverse run.now.run) found.places.items) }
        ensures clocked { IfOk result (λ found. AreClocked (reverse run.now.run) found.places.items) }
        ensures delivered { IfOk result (λ found. AreDelivered (reverse run.now.run) found.deliveries.items) }
    {
        let acts = run.acts();
        let places = places_of(alloc, program, ranks, acts)?;
        let deliveries = deliveries_of(alloc, acts)?;
        let orders = fates_of(alloc, given, acts)?;
        Ok(ActDetails {
            places,
            deliveries,
            orders,
        })
    }

    fn told<'a, 'p>(&'a self, run: &'a Sim<'p>, given: Given<'a>) -> Told<'a, 'p>
        ensures lines { result.lines.now ≡ given.entry.lines.now }
        ensures acts { result.acts.now ≡ reverse run.entry.now.run }
        ensures places { result.places.now ≡ self.entry.now.places.items }
        ensures deliveries { result.deliveries.now ≡ self.entry.now.deliveries.items }
    {
        let outcome = given.outcome;
        Told {
            text: given.text,
            lines: given.lines,
            ends: outcome.ends.as_slice(),
            whys: given.whys,
            run,
            acts: run.acts(),
            places: self.places.as_slice(),
            deliveries: self.deliveries.as_slice(),
            orders: self.orders.as_slice(),
        }
    }
}

/// The run in words: its acts, how its ranks ended, what nobody received, which
/// lines of the script never came to pass, and what crashes and images the
/// others were. `run` is the one that `audit::find_run` finds for the outcome
/// that is given, and its statements stand on the lines that are given, as
/// `LinedProgram::parse` finds them. An `Err` means out of memory.
pub fn trace_text(
    alloc: Heap,
    program: &Program,
    ranks: u8,
    run: &Sim<'_>,
    given: Given<'_>,
) -> Result<String<Heap>, AllocError>
    requires some { 1 ≤ ranks }
    requires few { ranks ≤ most_ranks }
    requires lined { IsLinedOf given.text.now program.now given.lines.now }
    ensures { IfOk result (λ text. BeginsWithActs given.entry.text.now program.now ranks (reverse run.now.run) (string_bytes text)) }
{
    let found = ActDetails::of(alloc, program, ranks, run, given)?;
    let told = found.told(run, given);
    let mut text = String::new(alloc);
    put_acts(&mut text, told)?;
    let rest = rest_of(alloc, told)?;
    text.push_str(rest.as_str())?;
    Ok(text)
}

// What is told behind the acts. It is a text of its own, so that whatever it is, the acts stay as they are.
fn rest_of(alloc: Heap, told: Told<'_, '_>) -> Result<String<Heap>, AllocError> {
    let mut text = TextWriter::new(alloc);
    put_ends(&mut text, told);
    put_circles(&mut text, told.run, told.ends);
    put_unreceived(&mut text, told);
    put_unmet(&mut text, told.orders);
    put_crashes(&mut text, told.orders, told.acts, told.places);
    text.done()
}

/// The same as JSON, an object a line, and what the run took.
pub fn trace_json(
    alloc: Heap,
    program: &Program,
    ranks: u8,
    run: &Sim<'_>,
    given: Given<'_>,
) -> Result<String<Heap>, AllocError>
    requires some { 1 ≤ ranks }
    requires few { ranks ≤ most_ranks }
{
    let found = ActDetails::of(alloc, program, ranks, run, given)?;
    json_of(alloc, found.told(run, given), given.crashes, given.calls)
}
