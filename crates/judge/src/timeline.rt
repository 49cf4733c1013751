// A video that is given and within its limits, in the two ways in which one is lent: what the judge
// asks of it (RULES 6.2).
ghost use Rattle.std.specs.Prelude.{◌≡◌, ◌<◌, ◌^◌, get_or};
ghost use Rattle.ticks.specs.Ticks.{micros_of, ends_near};
ghost use Rattle.judge.specs.Video.{Shown, constant, timed};

use wide::Big;

/// A video within its limits: its frames, their times, and its end.
pub trait Timeline {
    // The video that it is.
    ghost shown: { Self → Shown };

    /// How many frames it has.
    fn frame_count(&self) -> u64
        ensures { result ≡ (shown self.now).frames };

    /// The time of frame k in microseconds, where it can be had. The Rust's time_us.
    fn time_us(&self, k: u64) -> Option<i64>
        ensures { result ≡ micros_of ((shown self.now).time k) (shown self.now).scale };

    /// Whether a time in microseconds is near its end (RULES 5.3). The Rust's ends_near.
    fn is_near(&self, time: i64) -> bool
        ensures { result ≡ ends_near time
            (shown self.now).end (shown self.now).nominal (shown self.now).scale };
}

/// Frames at numerator / denominator a second: frame k lies at k × denominator ticks, of which there
/// are `numerator` a second.
#[derive(Clone, Copy)]
pub struct Constant {
    pub frames: u64,
    pub numerator: u64,
    pub denominator: u64,
    ghost numerator_fits: { numerator < 2 ^ 32 },
    ghost denominator_fits: { denominator < 2 ^ 32 },
}

impl Timeline for Constant {
    ghost shown = { λ video. constant video.frames video.numerator video.denominator };

    fn frame_count(&self) -> u64 {
        self.frames
    }

    fn time_us(&self, k: u64) -> Option<i64> {
        let time = Big {
            negative: false,
            magnitude: wide::product(k, self.denominator),
        };
        ticks::micros(time, self.numerator)
    }

    fn is_near(&self, time: i64) -> bool {
        let end = Big {
            negative: false,
            magnitude: wide::product(self.frames, self.denominator),
        };
        ticks::ends_near(time, end, self.denominator as i64, self.numerator)
    }
}

/// Frames by their starts in ticks, of which there are `scale` a second; the end of the last one, and
/// how long a frame is as a rule.
#[derive(Clone, Copy)]
pub struct Timed<'a> {
    pub starts: &'a [i64],
    pub scale: u64,
    pub end: i64,
    pub nominal: i64,
    ghost scale_fits: { scale < 2 ^ 32 },
}

// The start of frame k; past the last, the end.
fn start_of(starts: &[i64], k: u64, end: i64) -> i64
    ensures { result ≡ get_or starts.now k end }
{
    let at = k as usize;
    if at < starts.len() {
        return starts[at];
    }
    end
}

impl Timeline for Timed<'_> {
    ghost shown = { λ video. timed video.starts.now video.scale video.end video.nominal };

    fn frame_count(&self) -> u64 {
        self.starts.len() as u64
    }

    fn time_us(&self, k: u64) -> Option<i64> {
        let start = start_of(self.starts, k, self.end);
        ticks::micros(ticks::big_of(start), self.scale)
    }

    fn is_near(&self, time: i64) -> bool {
        ticks::ends_near(time, ticks::big_of(self.end), self.nominal, self.scale)
    }
}
