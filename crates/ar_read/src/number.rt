//! Numbers in a header: decimal digits, padded with spaces.

ghost use Rattle.std.specs.Prelude.{◌≡◌, ◌≤◌, length};
ghost use Rattle.ar_read.specs.Number.{number_of};

/// The number in a field of a header. There is none without a digit, or with another byte than a space behind
/// the digits. Zeros before the number are read.
#[tactic(auto, unfolding(crate::specs::Number::number_of))]
pub(crate) fn read_number(field: &[u8]) -> Option<u64>
    requires { length field.now ≤ 16 }
    ensures { result ≡ number_of field.now }
{
    let mut number = 0;
    for (i, b) in field.iter().enumerate() {
        if !b.is_ascii_digit() {
            return if i > 0 && are_spaces(&field[i..]) {
                Some(number)
            } else {
                None
            };
        }
        number = 10 * number + u64::from(*b - b'0');
    }
    if field.is_empty() { None } else { Some(number) }
}

/// Whether all bytes are spaces.
fn are_spaces(bytes: &[u8]) -> bool
    ensures { result ≡ Rattle.ar_read.specs.Number.are_spaces bytes.now }
{
    bytes.iter().all(|b| *b == b' ')
}
