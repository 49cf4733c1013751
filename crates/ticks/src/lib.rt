//! Time of a frame: ticks in microseconds (RULES 5.2), what is near the end of a video (RULES 5.3),
//! an edit's time in media ticks (RULES 8.5).
#![tactic(auto)]

ghost use Rattle.std.specs.Prelude.{◌≡◌, ◌+◌, ◌-◌, ◌^◌, ◌≤◌, ◌<◌, pos, ◌+ℤ◌, ◌*ℤ◌, nat_le, unsigned_abs};
ghost use Rattle.signed.specs.Rounded.{rounded};
ghost use Rattle.wide.specs.Value.{value, number};
ghost use Rattle.ticks.specs.Ticks.{micros_of, ticks_to_us, ends_near, media_ticks};
ghost use Rattle.ticks.specs.Allowances.{small_ticks, Allowed, Addable, big_of};
ghost use Rattle.ticks.specs.Examples.{WorkedExamples};

use refusal::{Reason, Refusal};
use wide::{Big, Wide};

/// The largest scale, in ticks a second; a larger one is refused with 20, `TooLarge` (RULES 11).
pub const LARGEST_SCALE: u64 = 4_294_967_295;

// The most ticks whose product with 1,000,000 fits 63 bits with its sign.
const SMALL_TICKS: u64 = 4_611_686_018_427;

/// The frame times of a video or a recording, beside its starts: RULES 8 and 9.
#[derive(Clone, Copy, Debug, PartialEq)]
pub struct FrameTimes {
    /// How many frames there are, each with its start.
    pub frames: usize,
    /// The ticks a second in which the starts, the nominal duration and the end are.
    pub scale: u64,
    /// How long a frame is as a rule, in ticks.
    pub nominal: i64,
    /// Where the last frame ends, in ticks.
    pub end: i64,
}

// A number that may be below 0 as the difference plus - minus.
#[derive(Clone, Copy)]
struct Allowance {
    plus: Wide,
    minus: Wide,
}

/// An i64 as a sign and a magnitude.
pub fn big_of(integer: i64) -> Big
    ensures { result ≡ big_of integer }
{
    let magnitude = integer.unsigned_abs();
    Big {
        negative: integer < 0,
        magnitude: Wide {
            high: 0,
            low: magnitude,
        },
    }
}

/// Ticks of a scale (ticks a second) in microseconds, to the nearest whole number, halves away from
/// zero; none at scale 0, or where no i64 holds them. From `ticks_to_us` of the Rust, which takes
/// 128 bits: half the scale is added before the division.
pub fn micros(ticks: Big, scale: u64) -> Option<i64>
    requires { (value ticks.magnitude < 2 ^ 96) × (scale < 2 ^ 32) }
    ensures { result ≡ micros_of (number ticks) scale }
{
    if scale == 0 {
        return None;
    }
    let magnitude = ticks.magnitude;
    let half = Wide {
        high: 0,
        low: scale / 2,
    };
    let time = wide::quotient(wide::add(wide::times(magnitude, 1_000_000), half), scale);
    if time.high != 0 {
        return None;
    }
    signed::with_sign(ticks.negative, time.low)
}

// The same of few ticks, by signed negation and division; their product with 1,000,000 fits 63
// bits.
fn small_micros(ticks: i64, scale: u64) -> i64
    requires { (unsigned_abs ticks ≤ small_ticks) × (0 < scale) × (scale < 2 ^ 32) }
    ensures { result ≡ rounded (ticks *ℤ pos 1000000) scale }
{
    signed::rounded_div(ticks * 1_000_000, scale as i64)
}

/// Ticks of a scale (ticks a second) in microseconds, to the nearest whole number, halves away from
/// zero. Refuses, at 0: 20, `TooLarge`, for a scale over `LARGEST_SCALE`; 23, `NoFrameTime`, for
/// scale 0 and for a time that no i64 holds. RULES 5.2; the Rust's `ticks_to_us`: few ticks by
/// signed division, the rest by two words.
#[tactic(auto, unfolding(crate::specs::Ticks::ticks_to_us, crate::specs::Ticks::us_of, crate::specs::Ticks::micros_of))]
pub fn ticks_to_us(ticks: i64, scale: u64) -> Result<i64, Refusal>
    ensures { result ≡ ticks_to_us ticks scale }
{
    if LARGEST_SCALE < scale {
        return Err(Reason::TooLarge.at(0));
    }
    if scale == 0 {
        return Err(Reason::NoFrameTime.at(0));
    }
    if ticks.unsigned_abs() <= SMALL_TICKS {
        return Ok(small_micros(ticks, scale));
    }
    match micros(big_of(ticks), scale) {
        Some(time) => Ok(time),
        None => Err(Reason::NoFrameTime.at(0)),
    }
}

// 2·nominal·1,000,000 + scale: how far an end may be off, in units of 1 / (2·scale) µs.
fn allowed(nominal: i64, scale: u64) -> Allowance
    requires { scale < 2 ^ 32 }
    ensures { Allowed (pos 2 *ℤ nominal *ℤ pos 1000000 +ℤ pos scale) result }
{
    let frame = wide::product(nominal.unsigned_abs(), 2_000_000);
    let rounding = Wide {
        high: 0,
        low: scale,
    };
    if nominal < 0 {
        return Allowance {
            plus: rounding,
            minus: frame,
        };
    }
    Allowance {
        plus: wide::add(frame, rounding),
        minus: Wide { high: 0, low: 0 },
    }
}

// Whether a and b, on one side of 0, are at most plus - minus apart; nothing is subtracted.
fn near_beside(a: Wide, b: Wide, plus: Wide, minus: Wide) -> bool
    requires { Addable (value a) (value b) (value plus) (value minus) }
    ensures { result ≡ nat_le (value a - value b + (value b - value a) + value minus) (value plus) }
{
    if wide::at_most(wide::add(a, minus), wide::add(b, plus)) {
        return wide::at_most(wide::add(b, minus), wide::add(a, plus));
    }
    false
}

// The same of a and b on both sides of 0.
fn near_across(a: Wide, b: Wide, plus: Wide, minus: Wide) -> bool
    requires { Addable (value a) (value b) (value plus) (value minus) }
    ensures { result ≡ nat_le (value a + value b + value minus) (value plus) }
{
    wide::at_most(wide::add(wide::add(a, b), minus), plus)
}

/// Whether an end in microseconds is near one in ticks of a scale: a nominal frame duration on
/// either side, and half a microsecond for the rounding. `end` and `nominal` are in ticks. RULES
/// 5.3; from `ends_near` of the Rust. Nothing passes 118 bits.
pub fn ends_near(end_us: i64, end: Big, nominal: i64, scale: u64) -> bool
    requires { (value end.magnitude < 2 ^ 96) × (scale < 2 ^ 32) }
    ensures { result ≡ ends_near end_us (number end) nominal scale }
{
    let magnitude = end.magnitude;
    let a = wide::times(wide::product(end_us.unsigned_abs(), scale), 2);
    let b = wide::times(magnitude, 2_000_000);
    let allowance = allowed(nominal, scale);
    let plus = allowance.plus;
    let minus = allowance.minus;
    if (end_us < 0) == end.negative {
        return near_beside(a, b, plus, minus);
    }
    near_across(a, b, plus, minus)
}

/// A duration of the movie, in ticks of `movie` a second, in the track's ticks, of `scale` a
/// second, to the nearest, a half up; none where no i64 holds it. RULES 8.5; from
/// `video_frame_times_of_moov` of the Rust.
#[tactic(auto, using(crate::proofs::Edits::quotients))]
pub fn edit_ticks(duration: u64, scale: u64, movie: u64) -> Option<u64>
    requires { (scale < 2 ^ 32) × (0 < movie) × (movie < 2 ^ 32) }
    ensures { result ≡ media_ticks duration scale movie }
{
    let half = Wide {
        high: 0,
        low: movie / 2,
    };
    let ticks = wide::quotient(wide::add(wide::product(duration, scale), half), movie);
    if ticks.high != 0 {
        return None;
    }
    let low = ticks.low;
    if low < 0x8000_0000_0000_0000 {
        return Some(low);
    }
    None
}

/// A theorem: the definitions give the numbers of specs/Examples.antt.
#[tactic(auto, unfolding(crate::specs::Ticks::ticks_to_us, crate::specs::Ticks::us_of, crate::specs::Ticks::micros_of, crate::specs::Ticks::ends_near, crate::specs::Ticks::media_ticks))]
pub fn worked_examples_hold()
    ensures { WorkedExamples }
{}
