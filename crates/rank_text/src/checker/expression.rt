//! An expression is looked at node by node, without recursion: what is still to be looked at waits in a list, so that
//! no nesting can use up the thread's stack.
ghost use Rattle.std.specs.Prelude.{◌≡◌, ◌+◌, OnOk, ◌&&◌, ◌||◌, nat_lt};
ghost use Rattle.rank_text.specs.Grammar.Tree.{tree_of};
ghost use Rattle.rank_text.specs.Checker.Scope.{all_declared, is_great, is_large, nodes};
ghost use Rattle.rank_text.specs.Checker.SeenLines.{scope_seen};
ghost use Rattle.rank_text.specs.Checker.Waiting.{all_known, nodes_in_all, some_great};

use crate::checker::scope::Scope;
use crate::checker::survey::{GREATEST, Survey};
use crate::grammar::Written;
use limits::{Heap, MOST_NODES};
use std::alloc::AllocError;

impl Survey {
    /// One node more.
    #[tactic(auto, using(crate::proofs::CheckerLaws::WaitingLaws::no_room, crate::proofs::CheckerLaws::WaitingLaws::some_room))]
    fn count(&mut self)
        ensures declared { self.new.declared ≡ self.old.declared }
        ensures great { self.new.great ≡ self.old.great }
        ensures large { (n : _) → (self.new.large || nat_lt self.new.room n) ≡ (self.old.large || nat_lt self.old.room (1 + n)) }
    {
        if self.room == 0 {
            self.large = true;
        } else {
            self.room -= 1;
        }
    }

    /// A node is looked at, and what it stands over is put behind what waits.
    #[tactic(auto, using(crate::proofs::CheckerLaws::WaitingLaws::waiting_laws))]
    fn node<'a>(
        &mut self,
        scope: &Scope,
        node: &'a Written,
        waiting: &mut Vec<&'a Written, Heap>,
    ) -> Result<(), AllocError>
        ensures declared { OnOk result ((self.new.declared && all_known (scope_seen scope.now) waiting.new.items)
            ≡ (self.old.declared && (all_known (scope_seen scope.now) waiting.old.items
            && all_declared (scope_seen scope.now) (tree_of node.now)))) }
        ensures large { OnOk result ((self.new.large || nat_lt self.new.room (nodes_in_all waiting.new.items))
            ≡ (self.old.large || nat_lt self.old.room (nodes_in_all waiting.old.items + nodes (tree_of node.now)))) }
        ensures great { OnOk result ((self.new.great || some_great waiting.new.items)
            ≡ (self.old.great || (some_great waiting.old.items || is_great (tree_of node.now)))) }
        ensures fewer { OnOk result (1 + nodes_in_all waiting.new.items
            ≡ nodes_in_all waiting.old.items + nodes (tree_of node.now)) }
    {
        self.count();
        match node {
            Written::Number(number) => self.great = self.great || *number > GREATEST,
            Written::Variable(name) => self.variable(scope, name),
            Written::Item(name, place) => {
                self.array(scope, name);
                waiting.push(place)?;
            }
            Written::Reading(_) => {}
            Written::Negation(operand) => waiting.push(operand)?,
            Written::Operation(_, left, right) => {
                waiting.push(left)?;
                waiting.push(right)?;
            }
        }
        Ok(())
    }

    /// What the expression adds to what has been found.
    #[tactic(auto, using(crate::proofs::CheckerLaws::WaitingLaws::waiting_laws))]
    pub(crate) fn expression(
        &mut self,
        alloc: Heap,
        scope: &Scope,
        expression: &Written,
    ) -> Result<(), AllocError>
        ensures declared { OnOk result (self.new.declared
            ≡ (self.old.declared && all_declared (scope_seen scope.now) (tree_of expression.now))) }
        ensures large { OnOk result (self.new.large ≡ (self.old.large || is_large (tree_of expression.now))) }
        ensures great { OnOk result (self.new.great ≡ (self.old.great || is_great (tree_of expression.now))) }
    {
        self.room = MOST_NODES;
        let mut waiting = Vec::new(alloc);
        waiting.push(expression)?;
        while let Some(node) = waiting.pop() {
            self.node(scope, node, &mut waiting)?;
        }
        Ok(())
    }
}
