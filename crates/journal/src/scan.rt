//! Tells whether bytes may be appended as a group.
ghost use Rattle.std.specs.Prelude.{◌≡◌, true, length, take};
ghost use Rattle.journal.specs.Lines.{HasNoZero, IsWhole};

/// Tells whether these bytes are whole lines with no 0 in them.
pub fn is_group(bytes: &[u8]) -> bool
    ensures no_zero { result ≡ true → HasNoZero bytes.now }
    ensures whole { result ≡ true → IsWhole bytes.now }
    ensures all { HasNoZero bytes.now → IsWhole bytes.now → result ≡ true }
{
    let mut is_whole = true;
    for byte in bytes {
        if *byte == 0 {
            return false;
        }
        is_whole = *byte == b'\n';
    }
    is_whole
}
