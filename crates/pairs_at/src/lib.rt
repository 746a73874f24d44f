//! Pairs of configurations of two boards against the points of the leaves of a matching.
#![tactic(auto)]

ghost use Rattle.class_leaves.specs.PairsAt.{PointsArePairs, PairsHavePoints, LowerPairsAreEarlier};

/// Every point is that of an agreeing pair.
pub fn points_are_pairs()
    ensures { PointsArePairs }
{}

/// Every agreeing pair has a point.
pub fn pairs_have_points()
    ensures { PairsHavePoints }
{}

/// A pair that is lower than that of a point has an earlier point.
pub fn lower_pairs_are_earlier()
    ensures { LowerPairsAreEarlier }
{}
