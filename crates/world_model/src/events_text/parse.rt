//! A text is read line by line.
ghost use Rattle.std.specs.Prelude.{◌≡◌, ℕ, Ok, Err, IfOk};
ghost use Rattle.world_model.specs.EventsText.Events.{events_of};
ghost use Rattle.world_model.specs.declared.events_text.fault.EventsFault.TheVariants.{Fault};
ghost use Rattle.world_model.specs.declared.events_text.fault.EventsFaultKind.{EventsFaultKind};

use crate::WorldEvent;
use crate::events_text::fault::EventsFault;
use crate::events_text::line::{Judged, judge};
use limits::Heap;
use rank_text::lines::next_line;

/// The events of a text in order, or its first fault.
///
/// A text is cut at each LF; what follows the last one is a line where it isn't
/// empty. Blank lines and those that begin with `#` are skipped.
pub fn parse_events(alloc: Heap, text: &[u8]) -> Result<Vec<WorldEvent, Heap>, EventsFault>
    ensures events { IfOk result (λ events. events_of text.now ≡ Ok events.items) }
    ensures fault { (line : ℕ) (kind : EventsFaultKind) → result ≡ Err (Fault line kind)
        → events_of text.now ≡ Err (line, kind) }
{
    let mut events = Vec::new(alloc);
    let mut number = 1;
    let mut rest = text;
    while let Some((line, more)) = next_line(rest) {
        match judge(number, line) {
            Judged::Skipped => {}
            Judged::Event(event) => {
                let Ok(()) = events.push(event) else {
                    return Err(EventsFault::Memory);
                };
            }
            Judged::Faulty(kind) => {
                return Err(EventsFault::Fault { line: number, kind });
            }
        }
        number += 1;
        rest = more;
    }
    Ok(events)
}
