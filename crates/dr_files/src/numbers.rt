//! Numbers, read from bytes.

ghost use Rattle.std.specs.Prelude.{◌≡◌};
ghost use Rattle.dr_files.specs.Numbers.{number_in};

/// The number of a field: one or more decimal digits, of a value below 2^64. Leading zeros are
/// allowed, a sign is not. The rule is this project's own.
pub fn number_of(field: &[u8]) -> Option<u64>
    ensures { result ≡ number_in field.now }
{
    if field.is_empty() {
        return None;
    }
    let mut number: u64 = 0;
    for byte in field {
        if !byte.is_ascii_digit() {
            return None;
        }
        let digit = (*byte - b'0') as u64;
        match number.checked_mul(10) {
            Some(tens) => match tens.checked_add(digit) {
                Some(next) => number = next,
                None => return None,
            },
            None => return None,
        }
    }
    Some(number)
}
