//! What a script without fault is by its definition, with nothing to compute.
ghost use Rattle.std.specs.Prelude.{◌≡◌, ◌≤◌, ℕ, All, List, None, length};
ghost use Rattle.limits.specs.Limits.{most_script_lines};
ghost use Rattle.rank_text.specs.Scripts.Orders.{IsOrder};
ghost use Rattle.rank_text.specs.Scripts.Script.{first_fault, script_lines};

/// Each line of a script without fault is an order to a rank of the run, at a clock
/// that a rank can have, and there are at most as many as a script may have.
pub fn law_orders()
    ensures orders { (ranks : ℕ) (text : List ℕ) → first_fault ranks text ≡ None
        → All (IsOrder ranks) (script_lines text) }
    ensures few { (ranks : ℕ) (text : List ℕ) → first_fault ranks text ≡ None
        → length (script_lines text) ≤ most_script_lines }
{}
