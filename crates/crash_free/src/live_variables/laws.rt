//! What holds of states that agree. Crates above cite these.
ghost use Rattle.std.specs.Prelude.{◌≡◌, Option, Some};
ghost use Rattle.rank_machine.specs.States.{State, inner};
ghost use Rattle.rank_machine.specs.Wants.{wants, payload};
ghost use Rattle.rank_machine.specs.Acts.{Act, Message, Makes, next};
ghost use Rattle.crash_free.specs.LiveVariables.Agrees.{Agrees};
ghost use Rattle.crash_free.specs.LiveVariables.Given.{HasItem};

/// A law, for proofs alone: a state agrees with itself, and states agree either way round, and from
/// one to the next.
#[tactic(auto, using(crate::proofs::LiveVariablesLaws::Acting::agrees_self, crate::proofs::LiveVariablesLaws::Acting::agrees_back))]
pub fn law_agrees()
    ensures itself { (a : State) → Agrees a a }
    ensures back { (a b : State) → Agrees a b → Agrees b a }
    ensures further { (a b c : State) → Agrees a b → Agrees b c → Agrees a c }
{}

/// A law, for proofs alone: states that agree want the same, give the same, and make the same acts;
/// an inner step of the one is one of the other, and so is an act, if its message has an item: it
/// leads to states that agree.
#[tactic(auto, using(crate::proofs::LiveVariablesLaws::Wanting::wants_same, crate::proofs::LiveVariablesLaws::Wanting::payload_same, crate::proofs::LiveVariablesLaws::Acting::makes_same))]
pub fn law_agreeing()
    ensures wants { (a b : State) → Agrees a b → wants a ≡ wants b }
    ensures gives { (a b : State) → Agrees a b → payload a ≡ payload b }
    ensures makes { (a b : State) (act : Act) (message : Option Message) → Agrees a b → Makes a act message → Makes b act message }
    ensures inner { (a b c : State) → Agrees a b → inner a ≡ Some c → (c' : State) × (inner b ≡ Some c') × Agrees c c' }
    ensures next { (a b : State) (act : Act) (message : Option Message) → Agrees a b → HasItem message → Agrees (next a act message) (next b act message) }
{}
