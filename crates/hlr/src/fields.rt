//! The numbers, digits and letters that the fields of a command spell.
ghost use Rattle.std.specs.Prelude.{◌≡◌, ℕ, ◌<◌, length};
ghost use Rattle.std.specs.List.{EachIndex};
ghost use Rattle.std.specs.Prelude.{slice_index};
ghost use Rattle.std.specs.Char.{digit_value};
ghost use Rattle.hlr.specs.Fields.{number_field, byte_field, digits_field, bytes_of, bytes_field};

use tatp_rows::Refusal;

/// Reads the number that a field of any length spells, as `parse_number` does.
#[cold]
#[inline(never)]
fn parse_long(text: &[u8]) -> Result<u64, Refusal>
    requires { 0 < length text.now }
    ensures { result ≡ number_field text.now }
{
    let mut value = 0u64;
    for byte in text {
        if !byte.is_ascii_digit() {
            return Err(Refusal::Field);
        }
        let digit = u64::from(*byte - b'0');
        if value > (u64::MAX - digit) / 10 {
            return Err(Refusal::Field);
        }
        value = value * 10 + digit;
    }
    Ok(value)
}

/// Reads the number that a field spells in one or more ASCII digits, of which the first may be zeros. It returns
/// `Field` if the value is above 2^64 - 1, if the field is empty, or if it has a sign, a space or any other byte.
pub fn parse_number(text: &[u8]) -> Result<u64, Refusal>
    ensures { result ≡ number_field text.now }
{
    if text.is_empty() {
        return Err(Refusal::Field);
    }
    // A number of 19 digits always fits.
    if text.len() > 19 {
        return parse_long(text);
    }
    let mut value = 0u64;
    for byte in text {
        let digit = byte.wrapping_sub(b'0');
        if digit > 9 {
            return Err(Refusal::Field);
        }
        value = value * 10 + u64::from(digit);
    }
    Ok(value)
}

/// Reads the byte that a field spells, which is a number of at most 255. It returns `Field` for anything else.
pub fn parse_byte(text: &[u8]) -> Result<u8, Refusal>
    ensures { result ≡ byte_field text.now }
{
    match u8::try_from(parse_number(text)?) {
        Ok(byte) => Ok(byte),
        Err(_) => Err(Refusal::Field),
    }
}

/// Returns the value of a digit or a letter, from 0 for `0` to 35 for `z` and `Z`, and 36 for any other byte.
fn digit_value(byte: u8) -> u8
    ensures { result ≡ digit_value byte }
{
    let digit = byte.wrapping_sub(b'0');
    if digit < 10 {
        return digit;
    }
    match byte {
        b'A'..=b'Z' => byte - b'A' + 10,
        b'a'..=b'z' => byte - b'a' + 10,
        _ => 36,
    }
}

/// Reads the `N` digits that a field spells, each below `limit`. The digits above 9 are letters of either case. It
/// returns `Field` if the field has another length or any other byte.
pub fn parse_digits<const N: usize>(text: &[u8], limit: u8) -> Result<[u8; N], Refusal>
    ensures { result ≡ digits_field limit N text.now }
{
    if text.len() != N {
        return Err(Refusal::Field);
    }
    let mut digits = [0u8; N];
    for (i, byte) in text.iter().enumerate() {
        let digit = digit_value(*byte);
        if digit >= limit {
            return Err(Refusal::Field);
        }
        digits[i] = digit;
    }
    Ok(digits)
}

/// Makes ten bytes of twenty hexadecimal digits.
fn pair_digits(digits: &[u8; 20]) -> [u8; 10]
    requires { (k : ℕ) → k < 20 → slice_index digits.now k < 16 }
    ensures { result ≡ bytes_of digits.now }
{
    let mut bytes = [0u8; 10];
    for i in 0..10 {
        bytes[i] = 16 * digits[2 * i] + digits[2 * i + 1];
    }
    bytes
}

/// Reads the ten bytes that a field spells in twenty hexadecimal digits of either case. It returns `Field` for anything
/// else.
pub fn parse_bytes(text: &[u8]) -> Result<[u8; 10], Refusal>
    ensures { result ≡ bytes_field text.now }
{
    let digits = parse_digits::<20>(text, 16)?;
    Ok(pair_digits(&digits))
}
