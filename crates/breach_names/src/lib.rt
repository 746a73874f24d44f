//! What a breach names is there: the variable that a new chip lacks is one of the board.
#![tactic(auto)]

ghost use Rattle.mig_base.specs.declared.plans.Plan.{Plan};
ghost use Rattle.mig_base.specs.declared.plans.Breach.{Breach};
ghost use Rattle.board.specs.Joined.{Joined};
ghost use Rattle.plans.specs.Breaches.{IsBreach};
ghost use Rattle.breach_names.specs.NamedVariables.{NamesVariable};

/// The variable that a breach of a plan names is one of the board.
pub fn breaches_name_variables()
    ensures { (b : Joined) (p : Plan) (x : Breach) → IsBreach b p x → NamesVariable b x }
{}
