//! What 36 means, and that it only divides 31 (RULES 7.6). Each theorem is the contract of a
//! function that does nothing.
#![tactic(auto)]

ghost use Rattle.stops.specs.Stops.{Stopping, Dividing};
ghost use Rattle.stops.specs.Promises.{ChildPlace, FindBoxPlace, Children, FrameTimesOf};

/// Where `Broken` (36) is answered, its index is the offset of a header that is there and broken,
/// and the walk for the box stopped at it (RULES 7.6, 8.1).
#[tactic(auto, using(crate::proofs::Stopping::stopping))]
pub fn stops_at_a_bad_header()
    ensures { Stopping ChildPlace FindBoxPlace Children FrameTimesOf }
{}

/// With `Broken` (36) taken back to `Missing` (31), every answer is the undivided one: that in
/// which 31 stands for both (RULES 7.6).
#[tactic(auto, using(crate::proofs::Dividing::dividing))]
pub fn only_divides()
    ensures { Dividing ChildPlace FindBoxPlace Children FrameTimesOf }
{}
