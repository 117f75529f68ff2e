//! The first line of a journal.
ghost use Rattle.std.specs.Prelude.{◌≡◌, ◌<◌, ◌++◌, ◌∷◌, [], OnOk, OnErr};
ghost use Rattle.std.specs.List.{AllByRecursion};
ghost use Rattle.edit_lines.specs.Lines.{first_line};
ghost use Rattle.edit_lines.specs.Reading.{first_checked};

use crate::error::LineError;
use std::alloc::AllocError;

/// Appends the first line of a journal, which names the format and its version, and a line feed. It appends nothing if
/// the system refuses memory.
pub fn push_first_line(lines: &mut Vec<u8>) -> Result<(), AllocError>
    ensures ok { OnOk result (lines.new.items ≡ lines.old.items ++ (first_line ++ 10 ∷ [])) }
    ensures err { OnErr result (lines.new.items ≡ lines.old.items) }
    // The line has neither a zero nor a line feed in it.
    ensures plain { AllByRecursion (λ byte. 10 < byte) first_line }
{
    lines.extend_from_slice(b"hlr journal 1\n")
}

/// Checks the first line of a journal, without its line feed. Its errors, in order, are `Format` if it doesn't begin
/// with the name of the format, and `Version` if it isn't the first line of this version.
pub fn check_first_line(line: &[u8]) -> Result<(), LineError>
    ensures { result ≡ first_checked line.now }
{
    if !line.starts_with(b"hlr journal ") {
        return Err(LineError::Format);
    }
    if line != b"hlr journal 1".as_slice() {
        return Err(LineError::Version);
    }
    Ok(())
}
