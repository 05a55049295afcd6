//! What the runs of a soak came to.
ghost use Rattle.std.specs.Prelude.{◌≡◌, ◌↔◌, ◌+◌, ◌++◌, ℕ, List, [], false, true, nat_lt, IsTrue, OnOk, string_bytes};
ghost use Rattle.audit.specs.FinalRuns.Final.{seen_of};
ghost use Rattle.run_events.specs.Halting.{HaveHalted};
ghost use Rattle.outcomes.specs.Soak.Histogram.{Notes, up_to};

mod text;

use crate::commands::Refusal;
use crate::output::all_halted;
use crate::soaked::text::print_failed;
pub use crate::soaked::text::print_soaked;
use limits::Heap;
use outcomes::soak::{Histogram, images_used, seen_of};
use rank_text::script::Script;
use rank_threads::Report;
use std::alloc::AllocError;

/// What is counted of the runs of a soak.
#[derive(Drop)]
pub struct Soaked {
    pub histogram: Histogram,
    /// How often ranks crashed in all runs, up to 2^64 - 1.
    pub crashes: u64,
    /// How many images ranks took that their scripts asked for.
    pub images: u64,
    /// The runs without a report, each with its script.
    pub failed: String<Heap>,
    /// Whether each run has a report in which every rank halted.
    pub all_halted: bool,
}

impl Soaked {
    ghost use Rattle.runner.specs.SoakText.{failed_text};

    /// Of no runs.
    pub fn new(alloc: Heap) -> Soaked
        ensures none { result.histogram ≡ [] }
        ensures crashes { result.crashes ≡ 0 }
        ensures halted { result.all_halted ≡ true }
        ensures failed { string_bytes result.failed ≡ [] }
    {
        Soaked {
            histogram: Histogram::new(alloc),
            crashes: 0,
            images: 0,
            failed: String::new(alloc),
            all_halted: true,
        }
    }

    /// A run under this script has this report. An `Err` means out of memory.
    pub fn note(&mut self, alloc: Heap, report: &Report, script: &Script) -> Result<(), AllocError>
        ensures counted { OnOk result (Notes self.old.histogram (seen_of report.now.outcome) (nat_lt 0 report.now.crashes) self.new.histogram) }
        ensures crashes { OnOk result (self.new.crashes ≡ up_to (self.old.crashes + report.now.crashes)) }
        ensures halted { OnOk result (IsTrue self.new.all_halted ↔ (IsTrue self.old.all_halted × HaveHalted report.now.outcome.ends)) }
        ensures failed { OnOk result (string_bytes self.new.failed ≡ string_bytes self.old.failed) }
    {
        let images = images_used(alloc, script, report.unused.as_slice())?;
        let seen = seen_of(alloc, &report.outcome)?;
        self.histogram.note(seen, report.crashes > 0)?;
        self.crashes = self.crashes.saturating_add(report.crashes);
        self.images = self.images.saturating_add(images);
        self.all_halted = self.all_halted && all_halted(&report.outcome);
        Ok(())
    }

    /// The run of this number, under a script of this text, has no report. An
    /// `Err` means out of memory.
    #[tactic(auto, using(crate::proofs::Soaks::is_told))]
    pub fn fail(
        &mut self,
        alloc: Heap,
        number: u32,
        why: Refusal<'_>,
        script: &str,
    ) -> Result<(), AllocError>
        ensures counted { self.new.histogram ≡ self.old.histogram }
        ensures crashes { self.new.crashes ≡ self.old.crashes }
        ensures halted { self.new.all_halted ≡ false }
        ensures told { OnOk result ((why : List ℕ) × (string_bytes self.new.failed ≡ string_bytes self.old.failed ++ failed_text number why script.now)) }
    {
        self.all_halted = false;
        let why = format!(in alloc; "{why}")?;
        print_failed(&mut self.failed, number, why.as_str(), script)?;
        Ok(())
    }
}
