//! The reasons why a line is refused.
ghost use Rattle.std.specs.Prelude.{◌≡◌};
ghost use Rattle.edit_lines.specs.declared.error.LineError.TheVariants.{Field};

use tatp_rows::Refusal;

/// The reason why a line was refused. If there are several, it is the first one in this list.
#[derive(Clone, Copy, Debug, PartialEq, Eq)]
pub enum LineError {
    /// The first line doesn't begin with the name of the format, so the file is no journal.
    Format,
    /// The first line names another version of the format.
    Version,
    /// The line is empty, or its first byte is the letter of no event.
    Kind,
    /// The line is shorter or longer than the lines with its letter.
    Length,
    /// A byte behind the letter isn't a digit, because its top bit isn't set.
    Digit,
    /// A field is out of its range.
    Field,
}

impl From<Refusal> for LineError {
    ghost from_gives = { λ _ e. e ≡ Field };

    /// Makes the error of a field that a row or a number refused.
    fn from(_: Refusal) -> Self {
        LineError::Field
    }
}
