//! Whether a sum passes a bound, tested without making the sum.
#![tactic(auto)]

ghost use Rattle.std.specs.Prelude.{◌≡◌};
ghost use Rattle.conditions.specs.Conditions.{past};

/// Whether `a` and `b` together pass a limit, that is, whether their sum is above it (RULES, before
/// 1). The sum is never made, so that nothing wraps.
#[tactic(auto, unfolding(crate::specs::Conditions::past))]
pub fn is_past(a: u64, b: u64, limit: u64) -> bool
    ensures { result ≡ past a b limit }
{
    b > limit || a > limit - b
}
