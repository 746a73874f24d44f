//! Plans: what they say of the units, the forms of parts, breaches, what is built, and moves, as definitions.
#![tactic(auto)]

ghost use Rattle.std.specs.Prelude.{◌≡◌, ◌⊎◌};
ghost use Rattle.board.specs.Joined.{Joined};
ghost use Rattle.mig_base.specs.declared.plans.Plan.{Plan};
ghost use Rattle.mig_base.specs.declared.plans.Breach.{Breach};
ghost use Rattle.plans.specs.Breaches.{Rule, RuleGives, IsBreach, HasBreach, HasNoBreach};

mod placing;

pub use placing::Placing;

/// A plan has one breach at most.
pub fn breach_is_unique()
    ensures { (b : Joined) (p : Plan) (x y : Breach) → IsBreach b p x → IsBreach b p y → x ≡ y }
{}

/// A plan has no breach exactly where it breaks no rule.
pub fn no_breach_breaks_no_rule()
    ensures unbroken { (b : Joined) (p : Plan) → HasNoBreach b p → (r : Rule) (x : Breach) → RuleGives b p r x → ⊥ }
    ensures free { (b : Joined) (p : Plan) → ((r : Rule) (x : Breach) → RuleGives b p r x → ⊥) → HasNoBreach b p }
{}

/// A plan has a breach or none: it can't be without both, nor have both.
pub fn a_breach_or_none()
    ensures one { (b : Joined) (p : Plan) → (HasBreach b p ⊎ HasNoBreach b p → ⊥) → ⊥ }
    ensures not_both { (b : Joined) (p : Plan) → HasBreach b p → HasNoBreach b p → ⊥ }
{}
