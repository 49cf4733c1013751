//! The UTC rule, and ticks in microseconds.
use crate::case::{Bytes, Case, Fault};
use crate::line::{Line, Values};

/// is_utc_second BYTES, which is answered by 0 or 1 alone
pub fn is_utc_second(case: &mut Case<'_>, line: &mut Line) -> Result<(), Fault> {
    let Bytes(bytes) = case.take()?;
    case.end()?;
    utc::is_utc_second(bytes.as_slice()).say(line)
}

/// ticks_to_us TICKS SCALE
pub fn ticks_to_us(case: &mut Case<'_>, line: &mut Line) -> Result<(), Fault> {
    let ticks = case.take()?;
    let scale = case.take()?;
    case.end()?;
    line.answer(ticks::ticks_to_us(ticks, scale))
}
