//! The k-th smallest of a lent slice of i64.
#![tactic(auto)]

ghost use Rattle.std.specs.Prelude.{◌≡◌, true, ◌+◌, ◌-◌, ◌*◌, ◌<◌, length, get_or, take, pos, int_lt, int_le};
ghost use Rattle.order.specs.Order.{sorted};
ghost use Rattle.order.specs.Counts.{count_le, Greatest};
ghost use Rattle.selection.specs.Keeping.{from_to};
ghost use Rattle.selection.specs.Bounds.{BoundsCounted, BoundsHold};

use order::SMALL;

// So many elements are looked at for where a selection begins, and so many of these it begins to
// either side of the wanted place.
const SAMPLES: usize = 16;

const ASIDE: usize = 4;

// A range of values, how many elements are below it, and how many at most its greatest.
#[derive(Clone, Copy)]
struct Bounds {
    pub low: i64,
    pub high: i64,
    pub below: usize,
    pub up_to: usize,
}

/// The k-th smallest of a slice, counted from 0. What `xs` holds afterwards isn't said.
pub fn select(xs: &mut [i64], k: usize) -> i64
    requires { k < length xs.old }
    ensures { result ≡ get_or (sorted xs.old) k (pos 0) }
{
    let begun = begin(&xs[..], k);
    let mut low = begun.low;
    let mut high = begun.high;
    // So many are left, the first ones. Of these, so many are below low, and so many at most high.
    let mut left = xs.len();
    let mut rank = k;
    let mut below = begun.below;
    let mut up_to = begun.up_to;
    // A range of values that has the wanted one is halved by counting. Where it has at most half of
    // the elements that are left, only those are kept; few are sorted.
    while low < high {
        if left <= SMALL {
            order::sort_small(&mut xs[..left]);
            return xs[rank];
        }
        if up_to - below <= left / 2 {
            left = keep(&mut xs[..left], low, high);
            rank -= below;
            below = 0;
            up_to = left;
        } else {
            let value = middle(low, high);
            let count = count_le(&xs[..left], value);
            if rank < count {
                high = value;
                up_to = count;
            } else {
                low = value + 1;
                below = count;
            }
        }
    }
    low
}

// Where to begin: from one element to another that lie around the wanted place in a sample, so that
// a value far from all others costs little. Where these don't have it between them, two that are
// further apart are tried, but not the outermost.
fn begin(xs: &[i64], k: usize) -> Bounds
    requires { k < length xs.now }
    ensures { BoundsHold xs.now k result }
{
    let n = xs.len();
    if n <= SAMPLES {
        return around(xs, k, xs[0], xs[0]);
    }
    let stride = n / SAMPLES;
    let mut sample = [0i64; SAMPLES];
    take_sample(xs, &mut sample, stride);
    order::sort_small(&mut sample);
    let place = k / stride;
    let before = place.saturating_sub(ASIDE);
    let bounds = between(xs, sample[sampled(before)], sample[sampled(place + ASIDE)]);
    if (bounds.below <= k) & (k < bounds.up_to) {
        return bounds;
    }
    around(xs, k, sample[1], sample[SAMPLES - 2])
}

// Fills sample with elements at about equal distances. Every other pair lies one further on, so
// that of a pattern that repeats at such a distance more than one place is seen.
fn take_sample(xs: &[i64], sample: &mut [i64], stride: usize)
    requires { (length sample.old - 1) * stride + 1 < length xs.now }
{
    for i in 0..sample.len() {
        sample[i] = xs[i * stride + i / 2 % 2];
    }
}

// A place in the sample; SAMPLES is the 16 of the promise.
fn sampled(place: usize) -> usize
    ensures { result < 16 }
{
    place.min(SAMPLES - 1)
}

// The range from low to high, or all that is below or above it, whichever has the k-th smallest.
fn around(xs: &[i64], k: usize, low: i64, high: i64) -> Bounds
    requires { k < length xs.now }
    ensures { BoundsHold xs.now k result }
{
    let bounds = between(xs, low, high);
    if k < bounds.below {
        let lowest = order::least(xs);
        return Bounds {
            low: lowest,
            high: low - 1,
            below: 0,
            up_to: bounds.below,
        };
    }
    if bounds.up_to <= k {
        let highest = greatest(xs);
        return Bounds {
            low: high + 1,
            high: highest,
            below: bounds.up_to,
            up_to: xs.len(),
        };
    }
    bounds
}

// The range from low to high. Both are counted in one pass.
#[tactic(auto, using(std::proofs::lemmas::List::take_all))]
fn between(xs: &[i64], low: i64, high: i64) -> Bounds
    ensures { BoundsCounted xs.now result × (result.low ≡ low) × (result.high ≡ high) }
{
    let mut below: usize = 0;
    let mut up_to: usize = 0;
    for i in 0..xs.len() {
        let x = xs[i];
        if x < low {
            below += 1;
        }
        if x <= high {
            up_to += 1;
        }
    }
    Bounds {
        low,
        high,
        below,
        up_to,
    }
}

// Moves the elements from low to high to the front, in their order, and answers how many they are.
fn keep(xs: &mut [i64], low: i64, high: i64) -> usize
    ensures { (result ≡ length (from_to low high xs.old))
        × (take result xs.new ≡ from_to low high xs.old) }
{
    let mut kept: usize = 0;
    for i in 0..xs.len() {
        let x = xs[i];
        xs[kept] = x;
        if (low <= x) & (x <= high) {
            kept += 1;
        }
    }
    kept
}

// The greatest element.
fn greatest(xs: &[i64]) -> i64
    requires { 0 < length xs.now }
    ensures { Greatest result xs.now }
{
    let mut highest = xs[0];
    for i in 1..xs.len() {
        let x = xs[i];
        if highest < x {
            highest = x;
        }
    }
    highest
}

// A value from low up to, not including, high: the one halfway, rounded down or towards low. No sum
// or difference on the way leaves i64.
fn middle(low: i64, high: i64) -> i64
    requires { int_lt low high ≡ true }
    ensures { (int_le low result ≡ true) × (int_lt result high ≡ true) }
{
    if low < 0 {
        if 0 <= high {
            return (low + high) >> 1;
        }
    }
    low + ((high - low) >> 1)
}

// How many elements are at most the value.
#[tactic(auto, using(std::proofs::lemmas::List::Sums::count_by_more_yes, std::proofs::lemmas::List::Sums::count_by_more_no, std::proofs::lemmas::List::take_all))]
fn count_le(xs: &[i64], value: i64) -> usize
    ensures { result ≡ count_le value xs.now }
{
    let mut n: usize = 0;
    for i in 0..xs.len() {
        if xs[i] <= value {
            n += 1;
        }
    }
    n
}
