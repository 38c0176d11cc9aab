// Demand 3 of a caller's loops over start and step, proved in proofs/ of what these two ensure. This function only makes it a crate.
#![tactic(auto)]

ghost use Rattle.std.specs.Prelude.{◌≡◌};
ghost use Rattle.wire.specs.Wire.{spent};
ghost use Rattle.session_calls.specs.Session.{ran};
ghost use Rattle.session.specs.Answer.{reported};

// 01's number for a call that its caller has left: Spent.
pub fn left_as() -> u8
    ensures { result ≡ (reported (ran spent) 0).number }
{
    11
}
