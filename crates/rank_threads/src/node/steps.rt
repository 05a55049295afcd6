//! The steps of a rank's machine.
ghost use Rattle.std.specs.Prelude.{◌≡◌, ◌≢◌, ◌+◌, ◌<◌, ◌≤◌, [], false, true, Some, Err, option_map, IfSome, IfOk, OnErr};
ghost use Rattle.rank_machine.specs.declared.want.Want.TheVariants.{Internal};
ghost use Rattle.rank_machine.specs.Machine.{machine_want, IsWantedBy};
ghost use Rattle.rank_node.specs.Phases.{clock_in};
ghost use Rattle.rank_node.specs.Steps.{refusal_of, turn_of};
ghost use Rattle.rank_threads.specs.Lives.{SameNode};
ghost use Rattle.rank_threads.specs.Phases.{want_in, IsWantedIn};
ghost use Rattle.rank_threads.specs.NodeSteps.{IsNodeStep};
ghost use Rattle.rank_threads.specs.Steps.{StridesIn, acts_made, is_print, replay_turn, unless_refused};

use super::Node;
use super::no_screen::NoScreen;
use checkpoint::MemoryShelf;
use event_logger::Desk;
use ports::ConsoleState;
use rank_machine::Wanted;
use rank_node::{NodeFault, Phase, Replaying, Running, Screen, Turn};

impl<'p, 'l> Node<'p, 'l> {
    /// What its machine wants next, with what was evaluated to find it; nothing
    /// where the rank is down.
    pub fn wanted(&self) -> Option<Wanted>
        ensures want { option_map (λ wanted. wanted.want) result ≡ want_in self.now.phase }
        ensures found { IfSome result (IsWantedIn self.now.phase) }
    {
        match &self.phase {
            Phase::Running(rank) => Some(rank.wanted()),
            Phase::Replaying(rank) => Some(rank.wanted()),
            Phase::Down(_) => None,
        }
    }

    /// Steps of its machine that no other rank sees, at most so many. Answers
    /// how many it made.
    pub fn stride(&mut self, most: u32) -> u32
        ensures few { result ≤ most }
        ensures made { StridesIn result self.old.phase self.new.phase }
        ensures some { 0 < most → want_in self.old.phase ≡ Some Internal → result ≢ 0 }
        ensures own { result ≢ 0 → want_in self.old.phase ≡ Some Internal }
        ensures none { result ≡ 0 → self.new.phase ≡ self.old.phase }
        ensures stands { result < most → want_in self.new.phase ≢ Some Internal }
        ensures clock { clock_in self.new.phase ≡ clock_in self.old.phase }
        ensures same { SameNode self.old self.new }
    {
        match &mut self.phase {
            Phase::Running(rank) => rank.stride(most),
            Phase::Replaying(rank) => rank.stride(most),
            Phase::Down(_) => 0,
        }
    }

    /// One step of its machine, of which this was found. It prints nothing, so it
    /// has no screen.
    pub fn step(&mut self, wanted: Wanted) -> Result<Turn, NodeFault>
        requires wanted { IsWantedIn self.old.phase wanted }
        requires silent { is_print (want_in self.old.phase) ≡ false }
        ensures step { IsNodeStep self.old self.new result }
    {
        self.step_on_screen(&mut NoScreen, wanted)
    }

    /// A print of its machine, of which this was found, onto the screen.
    pub fn print(&mut self, screen: &mut ConsoleState, wanted: Wanted) -> Result<Turn, NodeFault>
        requires wanted { IsWantedIn self.old.phase wanted }
        requires print { is_print (want_in self.old.phase) ≡ true }
        ensures step { IsNodeStep self.old self.new result }
    {
        self.step_on_screen(screen, wanted)
    }

    fn step_on_screen<C: Screen>(
        &mut self,
        screen: &mut C,
        wanted: Wanted,
    ) -> Result<Turn, NodeFault>
        requires { IsWantedIn self.old.phase wanted }
        ensures step { IsNodeStep self.old self.new result }
    {
        match &mut self.phase {
            Phase::Running(rank) => run_on(rank, screen, wanted),
            Phase::Replaying(rank) => replay_on(rank, screen, wanted),
            Phase::Down(_) => unreachable!(),
        }
    }
}

// A step of a rank that runs, said as a turn needs it: what is answered, and how
// far the clock goes.
fn run_on<C: Screen>(
    rank: &mut Running<'_, MemoryShelf, Desk>,
    screen: &mut C,
    wanted: Wanted,
) -> Result<Turn, NodeFault>
    requires { IsWantedBy rank.old.machine wanted }
    ensures answer { result ≢ Err NodeFault.Memory → result ≡ unless_refused (refusal_of rank.old) (turn_of rank.old) }
    ensures clock { IfOk result (λ turn. rank.new.clock ≡ rank.old.clock + acts_made (Some (machine_want rank.old.machine)) turn) }
    ensures err { OnErr result (rank.new ≡ rank.old) }
    ensures stable { rank.new.stable ≡ rank.old.stable }
{
    rank.step_wanted(screen, wanted)
}

// A rank is settled as soon as nothing is left, so that none replays beyond its row.
fn replay_on<C: Screen>(
    rank: &mut Replaying<'_, MemoryShelf, Desk>,
    screen: &mut C,
    wanted: Wanted,
) -> Result<Turn, NodeFault>
    requires { IsWantedBy rank.old.node.machine wanted }
    ensures answer { result ≢ Err NodeFault.Memory → result ≡ replay_turn rank.old.node rank.old.left }
    ensures clock { IfOk result (λ turn. rank.new.node.clock ≡ rank.old.node.clock + acts_made (Some (machine_want rank.old.node.machine)) turn) }
    ensures err { OnErr result (rank.new ≡ rank.old) }
    ensures stable { rank.new.node.stable ≡ rank.old.node.stable }
{
    if rank.left() == 0 {
        return Err(NodeFault::Replay);
    }
    replay_one(rank, screen, wanted)
}

// A step of a rank that has an event left, said so too.
fn replay_one<C: Screen>(
    rank: &mut Replaying<'_, MemoryShelf, Desk>,
    screen: &mut C,
    wanted: Wanted,
) -> Result<Turn, NodeFault>
    requires left { rank.old.left ≢ [] }
    requires wanted { IsWantedBy rank.old.node.machine wanted }
    ensures answer { result ≢ Err NodeFault.Memory → result ≡ replay_turn rank.old.node rank.old.left }
    ensures clock { IfOk result (λ turn. rank.new.node.clock ≡ rank.old.node.clock + acts_made (Some (machine_want rank.old.node.machine)) turn) }
    ensures err { OnErr result (rank.new ≡ rank.old) }
    ensures stable { rank.new.node.stable ≡ rank.old.node.stable }
{
    rank.step_wanted(screen, wanted)
}
