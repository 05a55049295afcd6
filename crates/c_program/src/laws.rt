//! What names in C are by their definition, with nothing to compute.
ghost use Rattle.std.specs.Prelude.{◌≡◌, ◌≤◌, ℕ, List, length};
ghost use Rattle.limits.specs.Limits.{most_name_bytes};
ghost use Rattle.c_program.specs.Names.{c_name};

/// A law, for proofs alone: two names of a program are two names in C.
pub fn law_names_differ()
    ensures { (x y : List ℕ) → length x ≤ most_name_bytes → length y ≤ most_name_bytes → c_name x ≡ c_name y → x ≡ y }
{}
