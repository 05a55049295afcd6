//! How much may happen in one run.
ghost use Rattle.std.specs.Prelude.{◌+◌, ◌≤◌};
ghost use Rattle.limits.specs.Limits.{most_script_lines};

/// How many kills and how many images a run's script has at most, both
/// together no more than a script may have lines.
#[derive(Clone, Copy)]
pub struct Most {
    pub kills: u8,
    pub images: u8,
    pub ghost few: { kills + images ≤ most_script_lines },
}
