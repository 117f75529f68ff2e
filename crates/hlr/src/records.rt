//! The words that records begin with, and their fields.
ghost use Rattle.std.specs.Prelude.{◌≡◌, ◌==◌, None, Some, IfSome, length, if◌then◌else◌, Ok, Err};
ghost use Rattle.csv.specs.Records.{fields_of};
ghost use Rattle.hlr.specs.Inside.{IsRarer, kind_of};
ghost use Rattle.hlr.specs.Records.{field, word_named, side_named, bounds_of};

use crate::fields::parse_number;
use arrayvec::ArrayVec;
use csv::ByteRecord;
use part_table::{MOST_PARTS, Side};
use tatp_rows::Refusal;

/// The most bounds between parts that there can be.
pub const MOST_BOUNDS: usize = MOST_PARTS as usize - 1;

// Definitions name this constant, so its number is proved here.
const _: () = prove!(MOST_BOUNDS == 15);

/// The words that a record may begin with.
#[derive(Clone, Copy, Debug, PartialEq, Eq)]
pub enum Word {
    /// `gsd`, GET_SUBSCRIBER_DATA.
    Gsd,
    /// `gnd`, GET_NEW_DESTINATION.
    Gnd,
    /// `gad`, GET_ACCESS_DATA.
    Gad,
    /// `usd`, UPDATE_SUBSCRIBER_DATA.
    Usd,
    /// `ul`, UPDATE_LOCATION.
    Ul,
    /// `icf`, INSERT_CALL_FORWARDING.
    Icf,
    /// `dcf`, DELETE_CALL_FORWARDING.
    Dcf,
    /// `sub`, which adds a Subscriber row.
    Sub,
    /// `acc`, which adds an Access_Info row.
    Acc,
    /// `fac`, which adds a Special_Facility row.
    Fac,
    /// `active`, which sets is_active of a facility.
    Active,
    /// `number`, which sets a subscriber's number.
    Number,
    /// `post`, which posts cells of a part.
    Post,
    /// `give`, which cuts a loose piece off a part.
    Give,
    /// `take`, which joins a loose piece to a part.
    Take,
    /// `divide`, which makes two parts of one.
    Divide,
    /// `dissolve`, which joins a part to the part in front.
    Dissolve,
    /// `views`, the report of the live counts.
    Views,
    /// `scan`, the report of the counts over the rows.
    Scan,
    /// `index`, the report of the numbers.
    Index,
    /// `regions`, the report of the regions.
    Regions,
    /// `propose`, the report of bounds by which each part would have about its share of the rows.
    Propose,
    /// `recut`, which moves the bounds between parts.
    Recut,
}

/// The reports, for which a record asks by its word alone.
#[derive(Clone, Copy, Debug)]
pub enum Report {
    /// The live counts.
    Views,
    /// The counts over the rows.
    Scan,
    /// The numbers.
    Index,
    /// The regions.
    Regions,
    /// The bounds by which each part would have about its share of the rows.
    Propose,
}

/// What the records that begin with a word ask for.
#[derive(Clone, Copy, Debug)]
pub enum Kind {
    /// An event.
    Event,
    /// A report.
    Report(Report),
    /// A recut.
    Recut,
}

/// Returns what the records that begin with this word ask for.
pub fn kind_of(word: Word) -> Kind
    ensures { result ≡ kind_of word }
{
    match word {
        Word::Views => Kind::Report(Report::Views),
        Word::Scan => Kind::Report(Report::Scan),
        Word::Index => Kind::Report(Report::Index),
        Word::Regions => Kind::Report(Report::Regions),
        Word::Propose => Kind::Report(Report::Propose),
        Word::Recut => Kind::Recut,
        _ => Kind::Event,
    }
}

/// Finds the word that a text is, exactly in lower case, if it is none of the four that most records have.
#[inline(always)]
#[tactic(auto, unfolding(crate::specs::Records::word_named))]
fn rarer_word(text: &[u8]) -> Option<Word>
    requires { IsRarer text.now }
    ensures { result ≡ word_named text.now }
{
    Some(match text {
        b"usd" => Word::Usd,
        b"icf" => Word::Icf,
        b"dcf" => Word::Dcf,
        b"sub" => Word::Sub,
        b"acc" => Word::Acc,
        b"fac" => Word::Fac,
        b"active" => Word::Active,
        b"number" => Word::Number,
        b"post" => Word::Post,
        b"give" => Word::Give,
        b"take" => Word::Take,
        b"divide" => Word::Divide,
        b"dissolve" => Word::Dissolve,
        b"views" => Word::Views,
        b"scan" => Word::Scan,
        b"index" => Word::Index,
        b"regions" => Word::Regions,
        b"propose" => Word::Propose,
        b"recut" => Word::Recut,
        _ => return None,
    })
}

/// Finds the word that a text is, if it is one of the four that most records have.
#[inline(always)]
#[tactic(auto, unfolding(crate::specs::Records::word_named))]
fn frequent_word(text: &[u8]) -> Option<Word>
    ensures found { IfSome result (λ word. word_named text.now ≡ Some word) }
    ensures none { result ≡ None → IsRarer text.now }
{
    if text.len() != 3 {
        return match text {
            b"ul" => Some(Word::Ul),
            _ => None,
        };
    }
    // One test for both letters comes before those of the other words.
    if (text[0] == b'g') & (text[2] == b'd') {
        return match text[1] {
            b's' => Some(Word::Gsd),
            b'a' => Some(Word::Gad),
            b'n' => Some(Word::Gnd),
            _ => None,
        };
    }
    None
}

/// Finds the word that a text is, exactly in lower case. It tries the four that most records have first.
#[inline(always)]
pub fn word_of(text: &[u8]) -> Option<Word>
    ensures { result ≡ word_named text.now }
{
    match frequent_word(text) {
        Some(word) => Some(word),
        None => rarer_word(text),
    }
}

/// Checks that a record has so many fields, and otherwise returns `Syntax`.
pub fn check_len(row: &ByteRecord, len: usize) -> Result<(), Refusal>
    ensures { result ≡ (if length (fields_of row.now) == len then Ok tt else Err Refusal.Syntax) }
{
    if row.len() == len {
        return Ok(());
    }
    Err(Refusal::Syntax)
}

/// Returns the field at a place, which is empty if there is none.
pub fn field(row: &ByteRecord, i: usize) -> &[u8]
    ensures { result.now ≡ field (fields_of row.now) i }
{
    row.get(i).unwrap_or(&[])
}

/// Finds the side of a part that a text names, `low` or `high`. It returns `Syntax` for any other text.
#[tactic(auto, unfolding(crate::specs::Records::side_named))]
pub fn side_named(text: &[u8]) -> Result<Side, Refusal>
    ensures { result ≡ side_named text.now }
{
    match text {
        b"low" => Ok(Side::Low),
        b"high" => Ok(Side::High),
        _ => Err(Refusal::Syntax),
    }
}

/// Reads the bounds of `recut,b1,..`. It returns `Field` if one of them is no number, or if there are more than 15.
pub fn read_bounds(row: &ByteRecord) -> Result<ArrayVec<u64, MOST_BOUNDS>, Refusal>
    ensures { result ≡ bounds_of (fields_of row.now) }
{
    let mut bounds = ArrayVec::new();
    for i in 1..row.len() {
        let bound = parse_number(field(row, i))?;
        if bounds.is_full() {
            return Err(Refusal::Field);
        }
        bounds.push(bound);
    }
    Ok(bounds)
}
