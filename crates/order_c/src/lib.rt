//! `order::sort` for programs in Rust and C to link.
#![tactic(auto)]

ghost use Rattle.order_c.specs.Call.{Sorts};

/// Sorts `xs` in ascending order, and answers true; false, and nothing changed, where `scratch` is
/// shorter than `xs`.
#[unsafe(no_mangle)]
pub extern "C" fn order_sort(xs: &mut [i64], scratch: &mut [i64]) -> bool
    ensures { Sorts xs.old scratch.old result xs.new }
{
    if scratch.len() < xs.len() {
        return false;
    }
    order::sort(xs, scratch);
    true
}
