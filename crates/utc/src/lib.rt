//! The UTC rule of creation times, RULES 5.1.
#![tactic(auto)]

ghost use Rattle.std.specs.Prelude.{◌≡◌, ◌+◌, ◌*◌, ◌-◌, ◌<◌, length};
ghost use Rattle.utc.specs.Utc.{figures, two, all_figures, marks, leap, days, dated, time_of_day, utc_bytes, utc_second};
ghost use Rattle.utc.specs.Examples.{WorkedExamples};

// What a figure is worth; 0 for a byte below `0`, which no answer rests on.
fn value(byte: u8) -> u64
    ensures { (result ≡ byte - 48) × (result < 256) }
{
    byte.saturating_sub(b'0') as u64
}

// The number of two figures.
fn two_at(bytes: &[u8], i: usize) -> u64
    requires { i + 1 < length bytes.now }
    ensures { (result ≡ two bytes.now i) × (result < 4096) }
{
    value(bytes[i]) * 10 + value(bytes[i + 1])
}

// Whether two bytes are figures.
fn figures_at(bytes: &[u8], i: usize) -> bool
    requires { i + 1 < length bytes.now }
    ensures { result ≡ figures bytes.now i }
{
    bytes[i].is_ascii_digit() & bytes[i + 1].is_ascii_digit()
}

// Whether figures stand where figures must.
fn all_figures(bytes: &[u8]) -> bool
    requires { length bytes.now ≡ 20 }
    ensures { result ≡ all_figures bytes.now }
{
    let date = (figures_at(bytes, 0) & figures_at(bytes, 2))
        & (figures_at(bytes, 5) & figures_at(bytes, 8));
    date & ((figures_at(bytes, 11) & figures_at(bytes, 14)) & figures_at(bytes, 17))
}

// Whether the marks stand where they must.
fn all_marks(bytes: &[u8]) -> bool
    requires { length bytes.now ≡ 20 }
    ensures { result ≡ marks bytes.now }
{
    (((bytes[4] == b'-') & (bytes[7] == b'-')) & ((bytes[10] == b'T') & (bytes[13] == b':')))
        & ((bytes[16] == b':') & (bytes[19] == b'Z'))
}

// Whether a year of the Gregorian calendar has February 29.
fn is_leap(year: u64) -> bool
    ensures { result ≡ leap year }
{
    (year % 4 == 0) & ((year % 100 != 0) | (year % 400 == 0))
}

// How many days a month has.
fn days_of(year: u64, month: u64) -> u64
    ensures { result ≡ days year month }
{
    if month == 2 {
        if is_leap(year) { 29 } else { 28 }
    } else if ((month == 4) | (month == 6)) | ((month == 9) | (month == 11)) {
        30
    } else {
        31
    }
}

// Whether there is such a date.
fn is_dated(year: u64, month: u64, day: u64) -> bool
    ensures { result ≡ dated year month day }
{
    ((month >= 1) & (month <= 12)) & ((day >= 1) & (day <= days_of(year, month)))
}

// Whether there is such a time of day.
fn is_timed(hour: u64, minute: u64, second: u64) -> bool
    ensures { result ≡ time_of_day hour minute second }
{
    ((hour < 24) & (minute < 60)) & (second < 60)
}

// The rule for 20 bytes.
fn utc_bytes(bytes: &[u8]) -> bool
    requires { length bytes.now ≡ 20 }
    ensures { result ≡ utc_bytes bytes.now }
{
    let shape = all_marks(bytes) & all_figures(bytes);
    let year = two_at(bytes, 0) * 100 + two_at(bytes, 2);
    let date = is_dated(year, two_at(bytes, 5), two_at(bytes, 8));
    let time = is_timed(two_at(bytes, 11), two_at(bytes, 14), two_at(bytes, 17));
    shape & (date & time)
}

/// Whether bytes are a time of day of a date, to the second, in UTC, as `2026-11-15T04:20:00Z`; any
/// other bytes are not, and nothing is refused. RULES 5.1; the Rust's `is_utc_second`.
#[tactic(auto, unfolding(crate::specs::Utc::utc_second))]
pub fn is_utc_second(bytes: &[u8]) -> bool
    ensures { result ≡ utc_second bytes.now }
{
    if bytes.len() != 20 {
        return false;
    }
    utc_bytes(bytes)
}

/// A theorem: the definitions give the numbers of specs/Examples.antt.
#[tactic(auto, unfolding(crate::specs::Utc::utc_second))]
pub fn worked_examples_hold()
    ensures { WorkedExamples }
{}
