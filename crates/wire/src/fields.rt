// Numbers as bytes, low byte first, a signed one in two's complement. A reader takes the bytes and a place,
// a writer is lent the part of the buffer that begins with its field and writes at its front. Each is one call of the library's, by the width
// that its contract says; it takes a longer slice too, so it asks for a length and not for an array.
ghost use Rattle.std.specs.Prelude.{◌≡◌, ◌+◌, ◌≤◌, ◌++◌, length};
ghost use Rattle.wire.specs.Bytes.{little, number_at, twos, signed, overwritten};

pub fn u8_at(bytes: &[u8], at: usize) -> u8
    requires { at + 1 ≤ length bytes.now }
    ensures { result ≡ number_at at 1 bytes.now }
{
    bytes[at]
}

pub fn u16_at(bytes: &[u8], at: usize) -> u16
    requires { at + 2 ≤ length bytes.now }
    ensures { result ≡ number_at at 2 bytes.now }
{
    u16::from_le_bytes([bytes[at], bytes[at + 1]])
}

pub fn u32_at(bytes: &[u8], at: usize) -> u32
    requires { at + 4 ≤ length bytes.now }
    ensures { result ≡ number_at at 4 bytes.now }
{
    u32::from_le_bytes([bytes[at], bytes[at + 1], bytes[at + 2], bytes[at + 3]])
}

#[tactic(auto, using(crate::proofs::Twos::passed_on))]
pub fn i16_at(bytes: &[u8], at: usize) -> i16
    requires { at + 2 ≤ length bytes.now }
    ensures { result ≡ signed (number_at at 2 bytes.now) }
{
    u16_at(bytes, at).cast_signed()
}

pub fn put_u8(bytes: &mut [u8], value: u8)
    requires { 1 ≤ length bytes.old }
    ensures { bytes.new ≡ overwritten bytes.old 0 (little 1 value) }
{
    bytes[0] = value;
}

// Two fields of one byte each.
pub fn put_pair(bytes: &mut [u8], first: u8, second: u8)
    requires { 2 ≤ length bytes.old }
    ensures { bytes.new ≡ overwritten bytes.old 0 (little 1 first ++ little 1 second) }
{
    bytes[..2].copy_from_slice(&[first, second]);
}

pub fn put_u16(bytes: &mut [u8], value: u16)
    requires { 2 ≤ length bytes.old }
    ensures { bytes.new ≡ overwritten bytes.old 0 (little 2 value) }
{
    bytes[..2].copy_from_slice(&value.to_le_bytes());
}

pub fn put_u32(bytes: &mut [u8], value: u32)
    requires { 4 ≤ length bytes.old }
    ensures { bytes.new ≡ overwritten bytes.old 0 (little 4 value) }
{
    bytes[..4].copy_from_slice(&value.to_le_bytes());
}

#[tactic(auto, using(crate::proofs::Twos::passed_on))]
pub fn put_i16(bytes: &mut [u8], value: i16)
    requires { 2 ≤ length bytes.old }
    ensures { bytes.new ≡ overwritten bytes.old 0 (little 2 (twos value)) }
{
    put_u16(bytes, value.cast_unsigned());
}
