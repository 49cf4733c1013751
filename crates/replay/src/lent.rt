//! The slices that are lent to a call to be written.
ghost use Rattle.std.specs.Prelude.{◌<◌, ◌≤◌, ◌^◌, pos, IfOk, vec_len};
ghost use Rattle.std.specs.Int.Signed.{◌<ℤ◌};
ghost use Rattle.replay.specs.Lent.{most_lent};

use crate::case::{Argument, Case, Fault};
use rows::Origin;

// The most elements of a slice that is lent.
const MOST: u64 = 65_536;

// How far from 0 the first element of what is lent lies.
const FIRST: u64 = 0x3000_0000_0000_0001;

// How far element k lies: no two neighbours equally far.
fn distance(k: usize) -> u64
    ensures { (0 < result) × (result < 2 ^ 62) }
{
    FIRST + (k as u64) % 1000 * 3
}

/// What a lent slice holds, so that it can be seen afterwards what the call wrote.
pub trait Element: Copy + PartialEq + Drop {
    /// Element k before the call, which is never 0.
    fn lent(k: usize) -> Self;
}

impl Element for u64 {
    fn lent(k: usize) -> u64
        ensures { 0 < result }
    {
        distance(k)
    }
}

impl Element for i64 {
    fn lent(k: usize) -> i64
        ensures { result <ℤ pos 0 }
    {
        -(distance(k) as i64)
    }
}

impl Element for u8 {
    fn lent(k: usize) -> u8
        ensures { 0 < result }
    {
        1 + (k % 251) as u8
    }
}

impl Element for Origin {
    fn lent(k: usize) -> Origin {
        Origin {
            source: u64::lent(k),
            frame: u64::lent(k),
            flag: u64::lent(k),
            shift: i64::lent(k),
        }
    }
}

/// A slice that is lent, one of the last arguments of a case, which has its length alone.
#[derive(Drop)]
pub struct Room<T>(Vec<T>);

// How long a lent slice is.
fn room_size(case: &mut Case<'_>) -> Result<usize, Fault>
    ensures { IfOk result (λ n. n ≤ most_lent) }
{
    let n: u64 = case.take()?;
    if MOST < n {
        return Err(Fault::Malformed);
    }
    Ok(n as usize)
}

impl<T: Element> Argument for Room<T> {
    fn read(case: &mut Case<'_>) -> Result<Room<T>, Fault>
        ensures { IfOk result (λ room. vec_len room.0 ≤ most_lent) }
    {
        let n = room_size(case)?;
        Ok(Room((0..n).map(|k| T::lent(k)).collect(case.alloc())?))
    }
}

impl<T: Element> Room<T> {
    pub fn lend(&mut self) -> &mut [T] {
        self.0.as_mut_slice()
    }

    /// What it holds after the call.
    pub fn held(&self) -> &[T] {
        self.0.as_slice()
    }

    /// Whether it is as it was lent from element n on.
    pub fn is_kept(&self, n: usize) -> bool {
        self.0
            .iter()
            .enumerate()
            .skip(n)
            .all(|(k, x)| *x == T::lent(k))
    }
}

/// The slices that rows are written over, their words and their shifts.
#[derive(Drop)]
pub struct Rows {
    pub words: Room<u64>,
    pub shifts: Room<i64>,
}

impl Argument for Rows {
    fn read(case: &mut Case<'_>) -> Result<Rows, Fault> {
        let words = case.take()?;
        let shifts = case.take()?;
        Ok(Rows { words, shifts })
    }
}

impl Rows {
    pub fn lend(&mut self) -> (&mut [u64], &mut [i64]) {
        (self.words.lend(), self.shifts.lend())
    }
}
