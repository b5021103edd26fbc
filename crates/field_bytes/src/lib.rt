//! Numbers at places in bytes, the lowest byte first.
#![tactic(auto)]

ghost use Rattle.std.specs.Prelude.{◌≡◌, ◌≤◌, ◌+◌, ◌++◌, length, OnOk, OnErr};
ghost use Rattle.field_bytes.specs.Fields.{bytes_of, number_at, with_number};

use byteorder::{ByteOrder, LittleEndian};
use std::alloc::AllocError;

/// The bytes that a `u32` takes.
const U32_BYTES: usize = 4;

/// The bytes that a `u64` takes.
const U64_BYTES: usize = 8;

/// The number in the four bytes from `at`. `None` exactly where they do not end within the bytes.
pub fn read_u32_at(bytes: &[u8], at: usize) -> Option<u32>
    ensures { result ≡ number_at 4 bytes.now at }
{
    let field = bytes.get(at..)?;
    if field.len() < U32_BYTES {
        return None;
    }
    Some(LittleEndian::read_u32(field))
}

/// The number in the eight bytes from `at`. `None` exactly where they do not end within the bytes.
pub fn read_u64_at(bytes: &[u8], at: usize) -> Option<u64>
    ensures { result ≡ number_at 8 bytes.now at }
{
    let field = bytes.get(at..)?;
    if field.len() < U64_BYTES {
        return None;
    }
    Some(LittleEndian::read_u64(field))
}

/// Writes the number into the four bytes from `at`. All other bytes stay.
pub fn write_u32_at(bytes: &mut [u8], at: usize, value: u32)
    requires { at + 4 ≤ length bytes.old }
    ensures { bytes.new ≡ with_number 4 bytes.old at value }
{
    LittleEndian::write_u32(&mut bytes[at..at + U32_BYTES], value);
}

/// Writes the number into the eight bytes from `at`. All other bytes stay.
pub fn write_u64_at(bytes: &mut [u8], at: usize, value: u64)
    requires { at + 8 ≤ length bytes.old }
    ensures { bytes.new ≡ with_number 8 bytes.old at value }
{
    LittleEndian::write_u64(&mut bytes[at..at + U64_BYTES], value);
}

/// Puts the four bytes of the number behind the bytes. Without memory they stay as they were.
pub fn push_u32(bytes: &mut Vec<u8>, value: u32) -> Result<(), AllocError>
    ensures ok { OnOk result (bytes.new.items ≡ bytes.old.items ++ bytes_of 4 value) }
    ensures err { OnErr result (bytes.new.items ≡ bytes.old.items) }
{
    let mut field = [0u8; U32_BYTES];
    write_u32_at(&mut field, 0, value);
    bytes.extend_from_slice(&field)
}

/// Puts the eight bytes of the number behind the bytes. Without memory they stay as they were.
pub fn push_u64(bytes: &mut Vec<u8>, value: u64) -> Result<(), AllocError>
    ensures ok { OnOk result (bytes.new.items ≡ bytes.old.items ++ bytes_of 8 value) }
    ensures err { OnErr result (bytes.new.items ≡ bytes.old.items) }
{
    let mut field = [0u8; U64_BYTES];
    write_u64_at(&mut field, 0, value);
    bytes.extend_from_slice(&field)
}

#[cfg(test)]
mod tests;
