//! Part 5 of a turn: what waits at the gate (output commit), and an image.
ghost use Rattle.std.specs.Prelude.{◌≡◌, true, false, Ok};
ghost use Rattle.rank_threads.specs.Clearing.{ClearsGate, has_stepped, leaves_misses};
ghost use Rattle.rank_threads.specs.Costs.{after_image, image_size_in};
ghost use Rattle.rank_threads.specs.Phases.{is_running, NoneWaits};

use super::stepping::Stepped;
use crate::life::Life;
use crate::shared::Shared;
use rank_node::NodeFault;
use std::sync::Wait;

/// Lets what waits pass, and takes the image that was noted; if the script asked
/// for it, its line is used. Just one miss or run of misses is left as it is, so
/// that a rank that polls goes on with one event, unless the rank made no step,
/// is to take an image, or was stopped by a limit.
#[tactic(auto, using(crate::proofs::ClearingLemmas::left_unimaged))]
pub fn clear_gate<W: Wait, H>(
    rt: &W,
    shared: &Shared<'_, H>,
    life: &mut Life<'_, '_>,
    stepped: Stepped,
    is_imaged: bool,
    is_asked: bool,
) -> Result<(), NodeFault>
    ensures settled { leaves_misses stepped is_imaged life.old.kit.tally.is_spent life.old.node.phase ≡ false → result ≡ Ok tt
        → life.new.kit.tally.is_refused ≡ false → NoneWaits life.new.node.phase }
    ensures left { leaves_misses stepped is_imaged life.old.kit.tally.is_spent life.old.node.phase ≡ true → life.new ≡ life.old }
    ensures cleared { ClearsGate is_imaged is_asked life.old life.new result }
{
    if leaves_misses(life, stepped, is_imaged) {
        return Ok(());
    }
    pass_all(rt, shared, life, is_imaged, is_asked)
}

// Whether misses may go on waiting.
fn leaves_misses(life: &Life<'_, '_>, stepped: Stepped, is_imaged: bool) -> bool
    ensures { result ≡ leaves_misses stepped is_imaged life.now.kit.tally.is_spent life.now.node.phase }
{
    has_stepped(stepped) && !is_imaged && !life.kit.tally.is_spent && life.node.misses_only()
}

fn has_stepped(stepped: Stepped) -> bool
    ensures { result ≡ has_stepped stepped }
{
    match stepped {
        Stepped::Moved | Stepped::Acted => true,
        Stepped::Blocked | Stepped::Held | Stepped::Ended => false,
    }
}

// Stores and acknowledges every event of the rank, lets what waits pass, and
// takes the image that was noted. A rank that replays takes none: a line that
// asks for it stays next, and one that is due isn't made up for later.
//
// A rank whose event the logger refuses is spent, and steps no more.
fn pass_all<W: Wait, H>(
    rt: &W,
    shared: &Shared<'_, H>,
    life: &mut Life<'_, '_>,
    is_imaged: bool,
    is_asked: bool,
) -> Result<(), NodeFault>
    ensures settled { result ≡ Ok tt → life.new.kit.tally.is_refused ≡ false → NoneWaits life.new.node.phase }
    ensures counted { result ≡ Ok tt → is_imaged ≡ true → life.new.kit.tally.is_refused ≡ false
        → is_running life.new.node.phase ≡ true → life.new.kit.meter ≡ after_image life.old.kit.meter (image_size_in life.new.node.phase) }
    ensures uncounted { is_imaged ≡ false → life.new.kit.meter ≡ life.old.kit.meter }
    ensures cleared { ClearsGate is_imaged is_asked life.old life.new result }
{
    let feed = shared.feed(life.kit.rank);
    let Ok(all) = life.node.release(rt, shared.console, feed) else {
        return Err(NodeFault::Memory);
    };
    if !all {
        life.kit.tally.refuse_event();
        return Ok(());
    }
    if is_imaged && life.node.image()? {
        let bytes = life.node.image_bytes(shared.alloc)?;
        life.kit.meter.count_image(bytes);
        if is_asked {
            life.kit.plan.use_one();
        }
        // each rank of which it accepted something is due a word
        life.kit.tally.set_owing(true);
    }
    Ok(())
}
