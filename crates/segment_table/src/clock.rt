//! Times: the UTC rule, and ticks in microseconds.
ghost use Rattle.std.specs.Prelude.{◌≡◌};
ghost use Rattle.utc.specs.Utc.{utc_second};
ghost use Rattle.ticks.specs.Ticks.{ticks_to_us};
ghost use Rattle.told.specs.Told.{told, itself};

/// Whether bytes are a creation time by the UTC rule: 20 bytes, YYYY-MM-DDTHH:MM:SSZ.
/// Lent: the bytes. Writes nothing, refuses nothing.
#[unsafe(no_mangle)]
pub extern "C" fn st_is_utc_second(bytes: &[u8]) -> bool
    ensures { result ≡ utc_second bytes.now }
{
    utc::is_utc_second(bytes)
}

/// Ticks of a scale in microseconds, to the nearest whole number; halves go away from zero.
/// Lent: nothing. Writes us, index. Refuses: 20, 23.
#[unsafe(no_mangle)]
pub extern "C" fn st_ticks_to_us(ticks: i64, scale: u64, us: &mut i64, index: &mut u64) -> u64
    ensures { (result, us.new, index.new) ≡ told itself (ticks_to_us ticks scale) us.old }
{
    told::tell(ticks::ticks_to_us(ticks, scale), us, index)
}
