//! Lent slices: clear and copy.
#![tactic(auto)]

ghost use Rattle.std.specs.Prelude.{◌≡◌, ◌≤◌, length};
ghost use Rattle.slices.specs.Slices.{laid, zeros};

/// Sets every element of a working slice to 0, as RULES 2.3 has it.
pub fn clear(xs: &mut [i64])
    ensures { xs.new ≡ zeros xs.old }
{
    xs.fill(0);
}

/// Copies `src` over the first elements of `dst`; what lies past them stays.
pub fn copy<T: Copy>(src: &[T], dst: &mut [T])
    requires { length src.now ≤ length dst.old }
    ensures { dst.new ≡ laid src.now dst.old }
{
    dst[..src.len()].copy_from_slice(src);
}
