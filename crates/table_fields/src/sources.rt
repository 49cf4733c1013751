//! A source of a table's text.
ghost use Rattle.std.specs.Prelude.{◌≡◌, ◌≤◌, length};
ghost use Rattle.json_tokens.specs.Text.{most_text};
ghost use Rattle.table_fields.specs.Typed.{rates_by};
ghost use Rattle.table_fields.specs.Found.{u64_by, pair_by, modulus_at, modulus_by, clock_at, clock_by, created_at, created_by, name_at, name_by, original_at};

use crate::members::{is_null, is_text, pair_by, text_by, u64_by};
use json_fields::{places, u64_at};

const MEMBERS: [&[u8]; 7] = [
    b"name",
    b"size",
    b"frames",
    b"fps",
    b"creation_time",
    b"clock",
    b"zcam_imu_origin_us",
];

const CLOCK_MEMBERS: [&[u8]; 3] = [b"name", b"rate", b"modulus"];

/// A clock's kind, 1 without a modulus and 2 with one, and the modulus; an absent one is 0.
#[derive(Clone, Copy)]
pub struct Modulus {
    /// 1 without a modulus, 2 with one.
    pub kind: u64,
    /// The modulus, in ticks.
    pub modulus: u64,
}

/// A source's clock, RULES 1.2; words of what is absent are 0.
#[derive(Clone, Copy)]
pub struct Clock {
    /// 0 for none, 1 for one without a modulus, 2 for one with.
    pub kind: u64,
    /// The numerator of its rate, in ticks a second.
    pub ticks: u64,
    /// The denominator.
    pub per: u64,
    /// Its modulus, in ticks.
    pub modulus: u64,
}

/// Its frames, and its frames a second.
#[derive(Clone, Copy)]
pub struct Rates {
    /// How many frames it has.
    pub frames: u64,
    /// The numerator of its frames a second.
    pub numerator: u64,
    /// The denominator.
    pub denominator: u64,
}

/// A source: where its name's text stands, its file's bytes, its rates, where its creation time
/// stands, its clock, and its IMU's origin in µs of that clock. The last three it may lack; the
/// kind of an absent clock is 0.
#[derive(Clone, Copy)]
pub struct Original {
    /// Where the quotation mark of its name stands.
    pub name: usize,
    /// How many bytes its file has.
    pub file_size: u64,
    /// Its frames, and its frames a second.
    pub rates: Rates,
    /// Where the quotation mark of its creation time stands.
    pub created: Option<usize>,
    /// Its clock.
    pub clock: Clock,
    /// The origin of its IMU, in microseconds.
    pub imu_origin: Option<u64>,
}

#[tactic(auto, unfolding(crate::specs::Found::modulus_at))]
fn modulus_at(text: &[u8], at: usize) -> Option<Modulus>
    requires { length text.now ≤ most_text }
    ensures { result ≡ modulus_at text.now at }
{
    if is_null(text, at) {
        return Some(Modulus {
            kind: 1,
            modulus: 0,
        });
    }
    let modulus = u64_at(text, at)?;
    Some(Modulus { kind: 2, modulus })
}

fn modulus_by(text: &[u8], place: Option<usize>) -> Option<Modulus>
    requires { length text.now ≤ most_text }
    ensures { result ≡ modulus_by text.now place }
{
    modulus_at(text, place?)
}

#[tactic(auto, unfolding(crate::specs::Found::clock_at, crate::specs::Typed::clock_of))]
fn clock_at(text: &[u8], at: usize, left: usize) -> Option<Clock>
    requires within { length text.now ≤ most_text }
    requires deep { 1 ≤ left }
    ensures { result ≡ clock_at left text.now at }
{
    if is_null(text, at) {
        return Some(Clock {
            kind: 0,
            ticks: 0,
            per: 0,
            modulus: 0,
        });
    }
    let [name, rate, modulus] = places::<3>(text, at, left, &CLOCK_MEMBERS);
    if !text_by(text, name) {
        return None;
    }
    let (ticks, per) = pair_by(text, rate, left - 1)?;
    let modulus = modulus_by(text, modulus)?;
    Some(Clock {
        kind: modulus.kind,
        ticks,
        per,
        modulus: modulus.modulus,
    })
}

fn clock_by(text: &[u8], place: Option<usize>, left: usize) -> Option<Clock>
    requires within { length text.now ≤ most_text }
    requires deep { 1 ≤ left }
    ensures { result ≡ clock_by left text.now place }
{
    clock_at(text, place?, left)
}

#[tactic(auto, unfolding(crate::specs::Found::created_at))]
fn created_at(text: &[u8], at: usize) -> Option<Option<usize>>
    requires { length text.now ≤ most_text }
    ensures { result ≡ created_at text.now at }
{
    if is_null(text, at) {
        return Some(None);
    }
    json_tokens::string(text, at)?;
    Some(Some(at))
}

fn created_by(text: &[u8], place: Option<usize>) -> Option<Option<usize>>
    requires { length text.now ≤ most_text }
    ensures { result ≡ created_by text.now place }
{
    created_at(text, place?)
}

#[tactic(auto, unfolding(crate::specs::Found::name_at))]
fn name_at(text: &[u8], at: usize) -> Option<usize>
    ensures { result ≡ name_at text.now at }
{
    if !is_text(text, at) {
        return None;
    }
    Some(at)
}

fn name_by(text: &[u8], place: Option<usize>) -> Option<usize>
    ensures { result ≡ name_by text.now place }
{
    name_at(text, place?)
}

#[tactic(auto, unfolding(crate::specs::Typed::rates_by))]
fn rates_by(text: &[u8], frames: Option<usize>, fps: Option<usize>, left: usize) -> Option<Rates>
    requires { length text.now ≤ most_text }
    ensures { result ≡ rates_by (u64_by text.now frames) (pair_by left text.now fps) }
{
    let frames = u64_by(text, frames)?;
    let (numerator, denominator) = pair_by(text, fps, left)?;
    Some(Rates {
        frames,
        numerator,
        denominator,
    })
}

/// The source at an offset, in whose members so many lists and objects may stand one in the other.
#[tactic(auto, unfolding(crate::specs::Found::original_at))]
pub fn original_at(text: &[u8], at: usize, left: usize) -> Option<Original>
    requires within { length text.now ≤ most_text }
    requires deep { 2 ≤ left }
    ensures { result ≡ original_at left text.now at }
{
    let [name, size, frames, fps, creation_time, clock, imu_origin] = places::<7>(
        text, at, left, &MEMBERS,
    );
    let name = name_by(text, name)?;
    let file_size = u64_by(text, size)?;
    let rates = rates_by(text, frames, fps, left - 1)?;
    let created = created_by(text, creation_time)?;
    let clock = clock_by(text, clock, left - 1)?;
    let imu_origin = u64_by(text, imu_origin);
    Some(Original {
        name,
        file_size,
        rates,
        created,
        clock,
        imu_origin,
    })
}
