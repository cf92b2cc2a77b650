// Decimal numbers: 1 to 4 digits, no leading zero except 0 itself.
ghost use Rattle.std.specs.Prelude.{◌≡◌};
ghost use Rattle.std.specs.List.{list_all};
ghost use Rattle.texts.specs.Bytes as Bytes;
ghost use Rattle.scan.specs.Numbers.{value_of, Digits};

use crate::bytes::digit;

// The value of at most four digits.
fn value(field: &[u8]) -> usize
    requires { Digits field.now }
    ensures { result ≡ Bytes.value 0 field.now }
{
    let mut v: usize = 0;
    for b in field {
        v = v * 10 + usize::from(*b - b'0');
    }
    v
}

// Whether each byte is a digit.
fn all_digits(field: &[u8]) -> bool
    ensures { result ≡ list_all Bytes.digit field.now }
{
    field.iter().all(|b| digit(*b))
}

// Whether a field writes a number.
fn is_number(field: &[u8]) -> bool
    ensures { result ≡ Bytes.is_number field.now }
{
    match field.len() {
        0 => false,
        1 => digit(field[0]),
        2..=4 => field[0] != b'0' && all_digits(field),
        _ => false,
    }
}

// The number that a field writes, or None where it writes none.
pub fn decimal(field: &[u8]) -> Option<usize>
    ensures { value_of result ≡ Bytes.number_of field.now }
{
    if is_number(field) {
        Some(value(field))
    } else {
        None
    }
}
