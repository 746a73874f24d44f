ghost use Rattle.plan_build.specs.PlanBuilt.{PlansAreBuilt};

/// The board of a plan without breach is accepted and shows what the old one shows, and the two have a proving matching.
pub fn plans_are_built()
    ensures { PlansAreBuilt }
{}
