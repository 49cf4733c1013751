//! Of things in order, the last that passes a test, by halving: one loop for rows and for segments,
//! by frames and by times.

ghost use Rattle.std.specs.Prelude.{ℕ, ◌≤◌, ◌<◌, true, false};
ghost use Rattle.rows.specs.Halving.{LastThat};

/// The last of n things that has begun, or the first where none has; those that have begun come
/// first.
// It is one of `left` things from number `at` on. The number of turns doesn't depend on what is
// read, so that a turn waits for little else.
#[inline(always)]
pub fn last_that<F: Fn(usize) -> bool>(n: usize, begun: F) -> usize
    requires some { 0 < n }
    requires can { (k : ℕ) → k < n → F.pre begun k }
    requires first { (i j : ℕ) → i ≤ j → j < n → F.post begun i false → F.post begun j true → ⊥ }
    ensures { LastThat (F.post begun) n result }
{
    let mut at = 0;
    let mut left = n;
    while 1 < left {
        let half = left / 2;
        let mid = at + half;
        left -= half;
        if begun(mid) {
            at = mid;
        }
    }
    at
}
