//! Bytes combined bit by bit, where they lie.
ghost use Rattle.std.specs.Prelude.{◌≡◌, length, bit_and, bit_or, bit_xor};
ghost use Rattle.st_atomic.specs.Atomic.{bytewise};

pub(crate) fn and_to(bytes: &mut [u8], operand: &[u8])
    requires { length bytes.old ≡ length operand.now }
    ensures { bytes.new ≡ bytewise bit_and bytes.old operand.now }
{
    for (i, byte) in operand.iter().enumerate() {
        bytes[i] &= *byte;
    }
}

pub(crate) fn or_to(bytes: &mut [u8], operand: &[u8])
    requires { length bytes.old ≡ length operand.now }
    ensures { bytes.new ≡ bytewise bit_or bytes.old operand.now }
{
    for (i, byte) in operand.iter().enumerate() {
        bytes[i] |= *byte;
    }
}

pub(crate) fn xor_to(bytes: &mut [u8], operand: &[u8])
    requires { length bytes.old ≡ length operand.now }
    ensures { bytes.new ≡ bytewise bit_xor bytes.old operand.now }
{
    for (i, byte) in operand.iter().enumerate() {
        bytes[i] ^= *byte;
    }
}
