//! Writes numbers at the front of a buffer. The bytes after a number stay unchanged.

ghost use Rattle.std.specs.Prelude.{◌≡◌, ◌≤◌, ◌++◌, drop, length};
ghost use Rattle.std.specs.Int.{w16, w32, w64, cast_unsigned, to_be_bytes, to_le_bytes};

/// Writes the number as two bytes, little-endian. Requires that the buffer has at least two bytes.
#[inline(always)]
pub fn emit_u16(buffer: &mut [u8], value: u16)
    requires { 2 ≤ length buffer.old }
    ensures { buffer.new ≡ to_le_bytes w16 value ++ drop 2 buffer.old }
{
    buffer[..2].copy_from_slice(&value.to_le_bytes());
}

/// Writes the number as four bytes, little-endian. Requires that the buffer has at least four
/// bytes.
#[inline(always)]
pub fn emit_u32(buffer: &mut [u8], value: u32)
    requires { 4 ≤ length buffer.old }
    ensures { buffer.new ≡ to_le_bytes w32 value ++ drop 4 buffer.old }
{
    buffer[..4].copy_from_slice(&value.to_le_bytes());
}

/// Writes the number as eight bytes, little-endian. Requires that the buffer has at least eight
/// bytes.
#[inline(always)]
pub fn emit_u64(buffer: &mut [u8], value: u64)
    requires { 8 ≤ length buffer.old }
    ensures { buffer.new ≡ to_le_bytes w64 value ++ drop 8 buffer.old }
{
    buffer[..8].copy_from_slice(&value.to_le_bytes());
}

/// Writes the number as four bytes, two's complement and little-endian. Requires that the buffer
/// has at least four bytes.
#[inline(always)]
pub fn emit_i32(buffer: &mut [u8], value: i32)
    requires { 4 ≤ length buffer.old }
    ensures { buffer.new ≡ to_le_bytes w32 (cast_unsigned w32 value) ++ drop 4 buffer.old }
{
    emit_u32(buffer, value.cast_unsigned());
}

/// Writes the number as two bytes, big-endian. Requires that the buffer has at least two bytes.
#[inline(always)]
pub fn emit_u16_be(buffer: &mut [u8], value: u16)
    requires { 2 ≤ length buffer.old }
    ensures { buffer.new ≡ to_be_bytes w16 value ++ drop 2 buffer.old }
{
    buffer[..2].copy_from_slice(&value.to_be_bytes());
}

/// Writes the number as four bytes, big-endian. Requires that the buffer has at least four bytes.
#[inline(always)]
pub fn emit_u32_be(buffer: &mut [u8], value: u32)
    requires { 4 ≤ length buffer.old }
    ensures { buffer.new ≡ to_be_bytes w32 value ++ drop 4 buffer.old }
{
    buffer[..4].copy_from_slice(&value.to_be_bytes());
}

/// Writes the number as eight bytes, big-endian. Requires that the buffer has at least eight bytes.
#[inline(always)]
pub fn emit_u64_be(buffer: &mut [u8], value: u64)
    requires { 8 ≤ length buffer.old }
    ensures { buffer.new ≡ to_be_bytes w64 value ++ drop 8 buffer.old }
{
    buffer[..8].copy_from_slice(&value.to_be_bytes());
}
