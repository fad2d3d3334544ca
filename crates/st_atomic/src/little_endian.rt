//! Bytes as little-endian numbers, added and compared where they lie.
ghost use Rattle.std.specs.Prelude.{◌≡◌, ◌+◌, length, nat_lt};
ghost use Rattle.st_atomic.specs.Atomic.{added, number_of};

// Adds a number of as many bytes. A carry past the last byte is lost.
pub(crate) fn add_to(sum: &mut [u8], operand: &[u8])
    requires { length sum.old ≡ length operand.now }
    ensures { sum.new ≡ added sum.old operand.now }
{
    let mut carry = 0;
    for (i, byte) in operand.iter().enumerate() {
        let total = u16::from(sum[i]) + u16::from(*byte) + carry;
        sum[i] = (total % 256) as u8;
        carry = total / 256;
    }
}

// Whether the first of two numbers of as many bytes is less: the highest byte that differs decides.
pub(crate) fn is_below(a: &[u8], b: &[u8]) -> bool
    requires { length a.now ≡ length b.now }
    ensures { result ≡ nat_lt (number_of a.now) (number_of b.now) }
{
    for i in (0..a.len()).rev() {
        if a[i] != b[i] {
            return a[i] < b[i];
        }
    }
    false
}
