//! The probes of a machine: what they show, and that they show nothing.
ghost use Rattle.std.specs.Prelude.{◌≡◌, ◌<◌, ℕ, Some, None};
ghost use Rattle.rank_machine.specs.Acts.{next, hits, misses, carried};
ghost use Rattle.rank_machine.specs.Machine.{state_of, machine_want, next_of, IsShowing, IsTrying, KeepsRank};

use crate::machine::Machine;
use matching::Packet;
use rank_language::Statement;

impl Machine<'_> {
    /// The probe that it wants is shown the packet, which stays where it is. The packet's source
    /// has to be a rank, so that the status always names one.
    pub fn show(&mut self, packet: &Packet)
        requires showing { IsShowing (machine_want self.old) packet.now }
        requires source { packet.now.source < self.old.store.size }
        ensures state { (place : ℕ) → state_of self.new ≡ next (state_of self.old) (hits packet.now.source place) (Some (carried packet.now)) }
        ensures position { self.new.position ≡ next_of self.old }
        ensures stays { KeepsRank self.old self.new }
    {
        let program = self.program;
        let Some(statement) = program.statement(self.position) else {
            unreachable!()
        };
        match statement {
            Statement::Probe { .. } => {}
            Statement::TryProbe { flag, .. } => self.store.set(*flag, 1),
            Statement::Declare(_)
            | Statement::DeclareArray(_)
            | Statement::Assign(_, _)
            | Statement::AssignItem(_, _, _)
            | Statement::If(_, _)
            | Statement::Else(_)
            | Statement::EndIf
            | Statement::While(_, _)
            | Statement::EndWhile(_)
            | Statement::Send { .. }
            | Statement::Receive { .. }
            | Statement::Print(_)
            | Statement::Collect(_) => unreachable!(),
        }
        self.store.show(packet);
        self.position += 1;
    }

    /// The probe that it wants, one that doesn't wait, is shown no packet.
    pub fn miss(&mut self)
        requires { IsTrying (machine_want self.old) }
        ensures state { state_of self.new ≡ next (state_of self.old) misses None }
        ensures position { self.new.position ≡ next_of self.old }
        ensures stays { KeepsRank self.old self.new }
    {
        let program = self.program;
        let Some(statement) = program.statement(self.position) else {
            unreachable!()
        };
        let Statement::TryProbe { flag, .. } = statement else {
            unreachable!()
        };
        self.store.set(*flag, 0);
        self.position += 1;
    }
}
