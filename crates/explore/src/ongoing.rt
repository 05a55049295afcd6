//! How far a search has come.
ghost use Rattle.std.specs.Prelude.{◌≡◌, ◌≤◌, ◌<◌, ◌++◌, ◌∷◌, ℕ, true, false, [], IfOk, Ok, length};
ghost use Rattle.limits.specs.Limits.{most_ranks};
ghost use Rattle.explore.specs.Counting.{GoesBeyond};
ghost use Rattle.crash_free.specs.LiveVariables.Live.{Table};
ghost use Rattle.explore.specs.Found.{AreGrouped};
ghost use Rattle.explore.specs.LastState.{Knows};
ghost use Rattle.explore.specs.Searching.{IsOn, NeedsFewer};
ghost use Rattle.explore.specs.Stems.{stems_of, whole};
ghost use Rattle.explore.specs.Stops.{CanGoBack, KeepsStops};
ghost use Rattle.explore.specs.Tables.{AreTablesOf};

use crate::bounds::Limits;
use crate::branch::Branch;
use crate::explored::Explored;
use crate::found::Found;
use crate::last_state::LastState;
use crate::met::Met;
use crate::outcome::outcome_of;
use crate::path::Path;
use crate::play::{PathEnd, play};
use crate::races::Races;
use crate::send_mode::SendMode;
use crate::stops::Stops;
use crate::tables::ProgramTables;
use crate::taking::take_up;
use limits::Heap;
use rank_language::Program;
use std::alloc::AllocError;

/// What a search found, and what is left of it.
#[derive(Drop)]
pub struct Search<'p> {
    /// The run that was played last, off which all branches go.
    path: Path<'p>,
    /// Where it can be taken up again.
    stops: Stops<'p>,
    /// The last one is next.
    pending: Vec<Branch, Heap>,
    found: Found,
    met: Met,
    /// What of the last state that was written still holds.
    last: LastState,
    races: Races,
    /// Whether a run was cut off where a rank came to its limit of steps.
    out_of_steps: bool,
}

impl<'p> Search<'p> {
    /// Nothing is found, and all is left. If it closes over states, a run is left
    /// where a run stood before, be that longer or shorter.
    pub fn new(
        alloc: Heap,
        program: &'p Program,
        ranks: u8,
        limits: Limits,
        closes: bool,
    ) -> Result<Search<'p>, AllocError>
        requires some { 1 ≤ ranks }
        requires few { ranks ≤ most_ranks }
        ensures on { IfOk result (λ s. (mode : SendMode) → IsOn mode program.entry.now ranks s.path.sim s.pending.items s.found s.met s.out_of_steps) }
        ensures all { IfOk result (λ s. stems_of s.path.sim.run s.pending.items ≡ whole ∷ []) }
        ensures uncut { IfOk result (λ s. s.out_of_steps ≡ false) }
        ensures back { IfOk result (λ s. CanGoBack limits.steps s.path.sim s.path.left s.stops) }
        ensures closes { IfOk result (λ s. s.met.closes ≡ closes) }
        ensures knows { IfOk result (λ s. (t : Table) → Knows t program.entry.now ranks s.path.sim.run s.met.parts s.last) }
    {
        let path = Path::new(alloc, program, ranks, limits.steps)?;
        let stops = Stops::new(alloc, &path)?;
        let mut pending = Vec::new(alloc);
        pending.push(Branch {
            shared: 0,
            chosen: None,
            choices: 0,
        })?;
        Ok(Search {
            path,
            stops,
            pending,
            found: Found::new(alloc),
            met: Met::new(alloc, limits.states, closes),
            last: LastState::new(),
            races: Races::new(alloc),
            out_of_steps: false,
        })
    }

    /// Takes up branches, the last one first, until one comes to where no run
    /// stood, and looks at its run. Answers whether there was one. An `Err` means
    /// out of memory.
    pub fn look_on(
        &mut self,
        alloc: Heap,
        mode: SendMode,
        tables: &ProgramTables,
    ) -> Result<bool, AllocError>
        requires few { length self.old.path.sim.machines ≤ most_ranks }
        requires tables { AreTablesOf self.old.path.sim.program tables.now }
        requires back { (steps : ℕ) × CanGoBack steps self.old.path.sim self.old.path.left self.old.stops }
        requires knows { Knows tables.now.live self.old.path.sim.program (length self.old.path.sim.machines) self.old.path.sim.run self.old.met.parts self.old.last }
        requires on { IsOn mode self.old.path.sim.program (length self.old.path.sim.machines) self.old.path.sim self.old.pending.items
            self.old.found self.old.met self.old.out_of_steps }
        ensures on { IfOk result (λ _. IsOn mode self.old.path.sim.program (length self.old.path.sim.machines) self.new.path.sim self.new.pending.items
            self.new.found self.new.met self.new.out_of_steps) }
        ensures none { result ≡ Ok false → self.new.pending.items ≡ [] }
        ensures closes { IfOk result (λ _. self.new.met.closes ≡ self.old.met.closes) }
        ensures enough { result ≡ Ok true → NeedsFewer mode self.old.path.sim.program (length self.old.path.sim.machines) self.old.path.sim.run
            self.old.pending.items self.new.path.sim.run self.new.pending.items }
        ensures knows { IfOk result (λ _. Knows tables.now.live self.old.path.sim.program (length self.old.path.sim.machines) self.new.path.sim.run
            self.new.met.parts self.new.last) }
        ensures back { IfOk result (λ _. KeepsStops self.old.path.sim self.old.path.left self.old.stops self.new.path.sim self.new.path.left self.new.stops) }
        ensures beyond { IfOk result (λ _. (steps : ℕ) → CanGoBack steps self.old.path.sim self.old.path.left self.old.stops
            → (self.old.out_of_steps ≡ true → GoesBeyond mode self.old.path.sim.program (length self.old.path.sim.machines) steps)
            → self.new.out_of_steps ≡ true → GoesBeyond mode self.old.path.sim.program (length self.old.path.sim.machines) steps) }
    {
        while let Some(branch) = self.pending.pop() {
            if self.look(alloc, mode, tables, branch)? {
                return Ok(true);
            }
        }
        Ok(false)
    }

    // Takes up one branch, goes on with its run to its end, or to where a run stood before, and
    // notes the outcome that it has at its end. Answers false if a run stood there before it left a
    // branch itself: then what may follow was looked at before.
    fn look(
        &mut self,
        alloc: Heap,
        mode: SendMode,
        tables: &ProgramTables,
        branch: Branch,
    ) -> Result<bool, AllocError>
        requires few { length self.old.path.sim.machines ≤ most_ranks }
        requires tables { AreTablesOf self.old.path.sim.program tables.now }
        requires back { (steps : ℕ) × CanGoBack steps self.old.path.sim self.old.path.left self.old.stops }
        requires knows { Knows tables.now.live self.old.path.sim.program (length self.old.path.sim.machines) self.old.path.sim.run self.old.met.parts self.old.last }
        requires on { IsOn mode self.old.path.sim.program (length self.old.path.sim.machines) self.old.path.sim (self.old.pending.items ++ branch ∷ [])
            self.old.found self.old.met self.old.out_of_steps }
        ensures on { IfOk result (λ _. IsOn mode self.old.path.sim.program (length self.old.path.sim.machines) self.new.path.sim self.new.pending.items
            self.new.found self.new.met self.new.out_of_steps) }
        ensures fewer { result ≡ Ok false → length self.new.pending.items ≤ length self.old.pending.items }
        ensures closes { IfOk result (λ _. self.new.met.closes ≡ self.old.met.closes) }
        ensures enough { IfOk result (λ _. NeedsFewer mode self.old.path.sim.program (length self.old.path.sim.machines) self.old.path.sim.run
            (self.old.pending.items ++ branch ∷ []) self.new.path.sim.run self.new.pending.items) }
        ensures knows { IfOk result (λ _. Knows tables.now.live self.old.path.sim.program (length self.old.path.sim.machines) self.new.path.sim.run
            self.new.met.parts self.new.last) }
        ensures back { IfOk result (λ _. KeepsStops self.old.path.sim self.old.path.left self.old.stops self.new.path.sim self.new.path.left self.new.stops) }
        ensures beyond { IfOk result (λ _. (steps : ℕ) → CanGoBack steps self.old.path.sim self.old.path.left self.old.stops
            → (self.old.out_of_steps ≡ true → GoesBeyond mode self.old.path.sim.program (length self.old.path.sim.machines) steps)
            → self.new.out_of_steps ≡ true → GoesBeyond mode self.old.path.sim.program (length self.old.path.sim.machines) steps) }
    {
        self.last
            .go_back(self.path.sim.as_sim().acts(), branch.shared);
        if !take_up(mode, &mut self.path, &mut self.stops, branch)? {
            self.out_of_steps = true;
            return Ok(true);
        }
        let others = self.pending.len();
        match play(
            alloc,
            mode,
            &mut self.path,
            &mut self.stops,
            &mut self.pending,
            tables,
            &mut self.met,
            &mut self.last,
            &mut self.races,
        )? {
            PathEnd::Still => {
                let ranks = outcome_of(alloc, mode, self.path.sim.as_sim())?;
                let left = self.path.sim.as_sim().left()?;
                self.found.note(ranks, left, self.path.choices.as_slice())?;
                Ok(true)
            }
            PathEnd::Met => Ok(self.pending.len() > others),
            PathEnd::Spent => {
                self.out_of_steps = true;
                Ok(true)
            }
        }
    }

    /// What it found, by so many runs.
    pub fn into_explored(self, runs: u32) -> Explored
        ensures found { AreGrouped self.entry.found result.outcomes result.left }
        ensures runs { result.runs ≡ runs }
        ensures steps { result.out_of_steps ≡ self.entry.out_of_steps }
        ensures complete { result.complete ≡ true → (self.entry.pending.items ≡ []) × (self.entry.out_of_steps ≡ false) × (self.entry.met.closes ≡ false) }
        ensures closed { result.closed ≡ true → (self.entry.pending.items ≡ []) × (self.entry.out_of_steps ≡ false) }
        ensures plain { self.entry.met.closes ≡ false → result.closed ≡ false }
        ensures no { result.complete ≡ false → result.closed ≡ false → self.entry.pending.items ≡ [] → self.entry.out_of_steps ≡ true }
    {
        let all = self.is_done();
        let closes = self.met.closes();
        let Search {
            path: _,
            stops: _,
            pending: _,
            found,
            met,
            last: _,
            races,
            out_of_steps,
        } = self;
        Explored {
            outcomes: found.into_outcomes(),
            races: races.into_found(),
            runs,
            states: met.states(),
            kept_all: met.kept_all(),
            complete: all && !closes,
            closed: all && closes,
            out_of_steps,
        }
    }

    // Whether all was searched.
    fn is_done(&self) -> bool
        ensures yes { result ≡ true → (self.now.pending.items ≡ []) × (self.now.out_of_steps ≡ false) }
        ensures no { result ≡ false → self.now.pending.items ≡ [] → self.now.out_of_steps ≡ true }
    {
        self.pending.is_empty() && !self.out_of_steps
    }
}
