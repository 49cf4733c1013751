//! Big-endian numbers in lent bytes.
ghost use Rattle.std.specs.Prelude.{◌≡◌, ◌+◌, ◌≤◌, length};
ghost use Rattle.boxes.specs.Bytes.{be32_at, be64_at};

/// The four bytes at an offset as a number, the first the most significant: the Rust's `be_u32`,
/// where they are there.
pub fn be32(bytes: &[u8], at: usize) -> u32
    requires { at + 4 ≤ length bytes.now }
    ensures { result ≡ be32_at bytes.now at }
{
    u32::from_be_bytes([bytes[at], bytes[at + 1], bytes[at + 2], bytes[at + 3]])
}

/// The eight bytes at an offset likewise: the Rust's `be_u64`, where they are there.
pub fn be64(bytes: &[u8], at: usize) -> u64
    requires { at + 8 ≤ length bytes.now }
    ensures { result ≡ be64_at bytes.now at }
{
    (be32(bytes, at) as u64) * 4294967296 + (be32(bytes, at + 4) as u64)
}

/// A type's number, as `code(b"moov")`.
pub fn code(kind: &[u8; 4]) -> u32
    ensures { result ≡ be32_at kind.now 0 }
{
    be32(kind, 0)
}
