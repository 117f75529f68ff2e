//! The lines of replies.
ghost use Rattle.std.specs.Prelude.{◌≡◌, ◌≤◌, ◌<◌, ◌+◌, ◌*◌, ◌++◌, ◌∷◌, [], length, decimal, nat_le};
ghost use Rattle.std.specs.Fmt.{signed_decimal};
ghost use Rattle.tatp_rows.specs.Number.{number_text};
ghost use Rattle.hlr_core.specs.Step.{edited_reply};
ghost use Rattle.hlr.specs.Lines.{hex_digit, hexes_text, bytes_text, numbers_text, ok_line, refused_line, subscriber_line, numbers_line, access_line, total_line, cell_line, counted_line, number_line, place_text, region_line, taken_line, part_change_line, decimals_text, bounds_line, recut_line, row_reply_line, reply_line};
ghost use Rattle.hlr.specs.Written.{HasRoom};

use arrayvec::ArrayVec;
use hlr_core::Reply;
use itoa::write_digits;
use part_table::{Bounds, Place, Region};
use std::marker::Model;
use tatp_actions::{CELLS, RowReply};
use tatp_rows::{Letters, Number, Refusal, Subscriber};

/// The most bytes that the line of a cell, of a number with its subscriber, or of a region takes.
pub const SHORT_LINE: usize = 70;

/// The most bytes that are appended between two tests for room. They are the lines of all cells, and the line that
/// counts them.
const LINE_ROOM: usize = SHORT_LINE * (CELLS as usize + 1);

/// How many bytes may wait when a line is begun. If there are more, they are handed on first.
pub const LINE_LIMIT: usize = 65_536;

// The definition of a line uses this number.
const _: () = prove!(LINE_LIMIT == 65_536);

/// How many bytes there is room for.
const LINE_SPACE: usize = LINE_LIMIT + LINE_ROOM;

/// The lines that aren't handed on yet, and behind them the line that is being built. They take no memory, because
/// their bytes lie in the value itself, from where they go to the sink.
#[derive(Drop)]
pub struct Line {
    bytes: [u8; LINE_SPACE],
    len: usize,
}

impl Model for Line {
    ghost use Rattle.std.specs.Prelude.{◌≤◌, take};
    ghost use Rattle.hlr.specs.Written.{Written};
    ghost use Rattle.hlr.specs.declared.lines.TheConstants.{LINE_SPACE};

    ghost Value = { Written };

    ghost view = { λ l. record { items = take l.len l.bytes } };

    ghost invariant = { λ l. l.len ≤ LINE_SPACE };
}

/// Makes room for lines, and leaves it empty.
#[inline(always)]
pub fn empty_line() -> Line
    ensures { result.items ≡ [] }
{
    Line {
        bytes: [0; LINE_SPACE],
        len: 0,
    }
}

impl Line {
    /// Returns the bytes that were appended.
    #[inline(always)]
    pub fn as_slice(&self) -> &[u8]
        ensures { result.now ≡ self.now.items }
    {
        &self.bytes[..self.len]
    }

    /// Returns whether a further line may be begun.
    #[inline(always)]
    pub fn has_room(&self) -> bool
        ensures { result ≡ nat_le (length self.now.items) LINE_LIMIT }
    {
        self.len <= LINE_LIMIT
    }

    /// Removes all lines.
    #[inline(always)]
    pub fn clear(&mut self)
        ensures { self.new.items ≡ [] }
    {
        self.len = 0;
    }

    /// Appends bytes.
    #[inline(always)]
    pub fn put(&mut self, bytes: &[u8])
        requires { length self.old.items + length bytes.now ≤ LINE_SPACE }
        ensures bytes { self.new.items ≡ self.old.items ++ bytes.now }
        ensures len { length self.new.items ≡ length self.old.items + length bytes.now }
    {
        let start = self.len;
        let end = start + bytes.len();
        self.bytes[start..end].copy_from_slice(bytes);
        self.len = end;
    }

    /// Appends a byte.
    #[inline(always)]
    fn put_byte(&mut self, byte: u8)
        requires { length self.old.items < LINE_SPACE }
        ensures bytes { self.new.items ≡ self.old.items ++ byte ∷ [] }
        ensures len { length self.new.items ≡ length self.old.items + 1 }
    {
        let at = self.len;
        self.bytes[at] = byte;
        self.len = at + 1;
    }

    /// Appends a word of a fixed length, byte by byte, so that the compiler turns it into stores.
    #[inline(always)]
    fn put_word<const N: usize>(&mut self, word: &[u8; N])
        requires { length self.old.items + N ≤ LINE_SPACE }
        ensures bytes { self.new.items ≡ self.old.items ++ word.now }
        ensures len { length self.new.items ≡ length self.old.items + N }
    {
        for at in 0..N {
            self.put_byte(word[at]);
        }
    }

    /// Appends the digits of a number. The caller says how many there are.
    #[inline(always)]
    fn put_digits(&mut self, n: u64, count: usize)
        requires count { count ≡ length (decimal n) }
        requires room { length self.old.items + count ≤ LINE_SPACE }
        ensures bytes { self.new.items ≡ self.old.items ++ decimal n }
        ensures len { length self.new.items ≡ length self.old.items + count }
    {
        let end = self.len + count;
        write_digits(n, &mut self.bytes, end);
        self.len = end;
    }

    /// Appends a number in decimal.
    #[inline(always)]
    fn put_decimal(&mut self, n: u64)
        requires { length self.old.items + 20 ≤ LINE_SPACE }
        ensures bytes { self.new.items ≡ self.old.items ++ decimal n }
        ensures len { length self.new.items ≤ length self.old.items + 20 }
    {
        // The code for longer numbers is compiled away wherever the count is a literal.
        if n < 10 {
            return self.put_digits(n, 1);
        }
        if n < 100 {
            return self.put_digits(n, 2);
        }
        if n < 1_000 {
            return self.put_digits(n, 3);
        }
        self.put_digits(n, n.ilog10() as usize + 1);
    }

    /// Appends a number in decimal, with `-` before it if it is negative.
    #[inline(always)]
    fn put_signed(&mut self, n: i64)
        requires { length self.old.items + 21 ≤ LINE_SPACE }
        ensures bytes { self.new.items ≡ self.old.items ++ signed_decimal n }
        ensures len { length self.new.items ≤ length self.old.items + 21 }
    {
        if n >= 0 {
            return self.put_decimal(n as u64);
        }
        self.put_byte(b'-');
        self.put_decimal(n.unsigned_abs());
    }

    /// Appends the digits of a number, at least 15 of them, with zeros in front.
    #[inline(always)]
    fn put_number(&mut self, n: u64)
        requires { length self.old.items + 20 ≤ LINE_SPACE }
        ensures bytes { self.new.items ≡ self.old.items ++ number_text n }
        ensures len { length self.new.items ≤ length self.old.items + 20 }
    {
        if n > 999_999_999_999_999 {
            return self.put_decimal(n);
        }
        self.put(b"000000000000000");
        write_digits(n, &mut self.bytes, self.len);
    }
}

/// Returns the hexadecimal digit of a byte's lowest four bits, in lower case.
fn hex_digit(byte: u8) -> u8
    ensures { result ≡ hex_digit byte }
{
    let low = byte % 16;
    if low < 10 {
        b'0' + low
    } else {
        b'a' - 10 + low
    }
}

/// Appends one hexadecimal digit for each number.
fn put_hexes(line: &mut Line, digits: &[u8])
    requires { length line.old.items + length digits.now ≤ LINE_SPACE }
    ensures bytes { line.new.items ≡ line.old.items ++ hexes_text digits.now }
    ensures len { length line.new.items ≡ length line.old.items + length digits.now }
{
    for at in 0..digits.len() {
        line.put_byte(hex_digit(digits[at]));
    }
}

/// Appends two hexadecimal digits for each byte.
fn put_bytes(line: &mut Line, bytes: &[u8])
    requires { length line.old.items + 2 * length bytes.now ≤ LINE_SPACE }
    ensures bytes { line.new.items ≡ line.old.items ++ bytes_text bytes.now }
    ensures len { length line.new.items ≡ length line.old.items + 2 * length bytes.now }
{
    for at in 0..bytes.len() {
        line.put_byte(hex_digit(bytes[at] / 16));
        line.put_byte(hex_digit(bytes[at]));
    }
}

/// Appends the line `ok`.
pub fn build_ok(line: &mut Line)
    requires { HasRoom line.old.items }
    ensures { line.new.items ≡ line.old.items ++ ok_line }
{
    line.put_word(b"ok\n");
}

/// Appends the line of a refusal.
#[tactic(auto, unfolding(crate::specs::Lines::refused_line))]
pub fn build_refused(line: &mut Line, why: Refusal)
    requires { HasRoom line.old.items }
    ensures { line.new.items ≡ line.old.items ++ refused_line why }
{
    line.put_word(b"refused,");
    line.put_decimal(u64::from(why.code()));
    line.put_byte(b',');
    line.put(why.name().as_bytes());
    line.put_byte(b'\n');
}

/// Appends the line of a Subscriber row.
#[tactic(auto, unfolding(crate::specs::Lines::subscriber_line))]
pub fn build_subscriber(line: &mut Line, row: &Subscriber)
    requires { HasRoom line.old.items }
    ensures { line.new.items ≡ line.old.items ++ subscriber_line row.now }
{
    line.put_word(b"subscriber,");
    line.put_decimal(u64::from(row.s_id()));
    line.put_byte(b',');
    line.put_number(row.sub_nbr().value());
    line.put_byte(b',');
    put_hexes(line, &row.bits());
    line.put_byte(b',');
    put_hexes(line, &row.hexes());
    line.put_byte(b',');
    put_bytes(line, &row.bytes());
    line.put_byte(b',');
    line.put_decimal(u64::from(row.msc_location()));
    line.put_byte(b',');
    line.put_decimal(u64::from(row.vlr_location()));
    line.put_byte(b'\n');
}

/// Appends the numbers of a list, each after a comma.
fn put_numbers(line: &mut Line, numbers: &[Number])
    requires { length line.old.items + 21 * length numbers.now ≤ LINE_SPACE }
    ensures bytes { line.new.items ≡ line.old.items ++ numbers_text numbers.now }
    ensures len { length line.new.items ≤ length line.old.items + 21 * length numbers.now }
{
    for at in 0..numbers.len() {
        line.put_byte(b',');
        line.put_number(numbers[at].value());
    }
}

/// Appends the line of the numbers that were found.
#[tactic(auto, unfolding(crate::specs::Lines::numbers_line))]
pub fn build_numbers(line: &mut Line, numbers: &ArrayVec<Number, 3>)
    requires { HasRoom line.old.items }
    ensures { line.new.items ≡ line.old.items ++ numbers_line numbers.now.items }
{
    line.put_word(b"numbers");
    put_numbers(line, numbers.as_slice());
    line.put_byte(b'\n');
}

/// Appends the line of an access, with data1 to data4.
#[tactic(auto, unfolding(crate::specs::Lines::access_line))]
pub fn build_access(line: &mut Line, data1: u8, data2: u8, data3: Letters<3>, data4: Letters<5>)
    requires { HasRoom line.old.items }
    ensures { line.new.items ≡ line.old.items ++ access_line data1 data2 data3 data4 }
{
    line.put_word(b"access,");
    line.put_decimal(u64::from(data1));
    line.put_byte(b',');
    line.put_decimal(u64::from(data2));
    line.put_byte(b',');
    line.put(&data3.bytes());
    line.put_byte(b',');
    line.put(&data4.bytes());
    line.put_byte(b'\n');
}

/// Appends a line of a word, which ends with a comma, and a count.
#[tactic(auto, unfolding(crate::specs::Lines::total_line))]
pub fn build_total(line: &mut Line, word: &[u8], count: u64)
    requires { (length word.now ≤ 8) × (length line.old.items + SHORT_LINE ≤ LINE_SPACE) }
    ensures { line.new.items ≡ line.old.items ++ total_line word.now count }
{
    line.put(word);
    line.put_decimal(count);
    line.put_byte(b'\n');
}

/// Appends the line of a cell, with its published and its unposted count.
#[tactic(auto, unfolding(crate::specs::Lines::cell_line))]
pub fn put_cell(line: &mut Line, cell: u64, published: i64, unposted: i64)
    requires { length line.old.items + SHORT_LINE ≤ LINE_SPACE }
    ensures bytes { line.new.items ≡ line.old.items ++ cell_line cell published unposted }
    ensures len { length line.new.items ≤ length line.old.items + SHORT_LINE }
{
    line.put_word(b"cell,");
    line.put_decimal(cell);
    line.put_byte(b',');
    line.put_signed(published);
    line.put_byte(b',');
    line.put_signed(unposted);
    line.put_byte(b'\n');
}

/// Appends the line of a cell and its count over the rows.
#[tactic(auto, unfolding(crate::specs::Lines::counted_line))]
pub fn put_counted(line: &mut Line, cell: u64, count: u64)
    requires { length line.old.items + SHORT_LINE ≤ LINE_SPACE }
    ensures bytes { line.new.items ≡ line.old.items ++ counted_line cell count }
    ensures len { length line.new.items ≤ length line.old.items + SHORT_LINE }
{
    line.put_word(b"cell,");
    line.put_decimal(cell);
    line.put_byte(b',');
    line.put_decimal(count);
    line.put_byte(b'\n');
}

/// Appends the line of a number and the subscriber who has it.
#[tactic(auto, unfolding(crate::specs::Lines::number_line))]
pub fn put_pair(line: &mut Line, number: u64, s_id: u32)
    requires { length line.old.items + SHORT_LINE ≤ LINE_SPACE }
    ensures bytes { line.new.items ≡ line.old.items ++ number_line (number, s_id) }
    ensures len { length line.new.items ≤ length line.old.items + SHORT_LINE }
{
    line.put_word(b"number,");
    line.put_number(number);
    line.put_byte(b',');
    line.put_decimal(u64::from(s_id));
    line.put_byte(b'\n');
}

/// Appends a part or a loose piece, by its number.
fn put_place(line: &mut Line, place: Place)
    requires { length line.old.items + 26 ≤ LINE_SPACE }
    ensures bytes { line.new.items ≡ line.old.items ++ place_text place }
    ensures len { length line.new.items ≤ length line.old.items + 26 }
{
    match place {
        Place::Part(part) => {
            line.put_word(b"part,");
            line.put_decimal(u64::from(part));
        }
        Place::Piece(piece) => {
            line.put_word(b"piece,");
            line.put_decimal(u64::from(piece));
        }
    }
}

/// Appends the line of a region, with its owner, and where it begins and ends.
#[tactic(auto, unfolding(crate::specs::Lines::region_line))]
pub fn build_region(line: &mut Line, region: &Region)
    requires { HasRoom line.old.items }
    ensures { line.new.items ≡ line.old.items ++ region_line region.now }
{
    put_place(line, region.place);
    line.put_byte(b',');
    line.put_decimal(u64::from(region.lo));
    line.put_byte(b',');
    line.put_decimal(u64::from(region.hi));
    line.put_byte(b'\n');
}

/// Appends the line of a loose piece that a part took.
#[tactic(auto, unfolding(crate::specs::Lines::taken_line))]
pub fn build_taken(line: &mut Line, piece: u8, part: u8)
    requires { HasRoom line.old.items }
    ensures { line.new.items ≡ line.old.items ++ taken_line piece part }
{
    line.put_word(b"taken,");
    line.put_decimal(u64::from(piece));
    line.put_byte(b',');
    line.put_decimal(u64::from(part));
    line.put_byte(b'\n');
}

/// Appends the line of a part that is new, or that got the rows of a dissolved one. It has a word, which ends with a
/// comma, the number of the part, and where the part begins and ends.
#[tactic(auto, unfolding(crate::specs::Lines::part_change_line))]
pub fn build_part_change(line: &mut Line, word: &[u8], part: u8, lo: u32, hi: u32)
    requires short { length word.now ≤ 10 }
    requires room { HasRoom line.old.items }
    ensures { line.new.items ≡ line.old.items ++ part_change_line word.now part lo hi }
{
    line.put(word);
    line.put_decimal(u64::from(part));
    line.put_byte(b',');
    line.put_decimal(u64::from(lo));
    line.put_byte(b',');
    line.put_decimal(u64::from(hi));
    line.put_byte(b'\n');
}

/// Appends bounds between parts, each after a comma.
fn put_bounds(line: &mut Line, bounds: &Bounds)
    requires { length line.old.items + 315 ≤ LINE_SPACE }
    ensures bytes { line.new.items ≡ line.old.items ++ decimals_text bounds.now }
    ensures len { length line.new.items ≤ length line.old.items + 315 }
{
    let list = bounds.list();
    for at in 0..list.len() {
        line.put_byte(b',');
        line.put_decimal(list[at]);
    }
}

/// Appends the line of bounds between parts.
#[tactic(auto, unfolding(crate::specs::Lines::bounds_line))]
pub fn build_bounds(line: &mut Line, bounds: &Bounds)
    requires { HasRoom line.old.items }
    ensures { line.new.items ≡ line.old.items ++ bounds_line bounds.now }
{
    line.put_word(b"bounds");
    put_bounds(line, bounds);
    line.put_byte(b'\n');
}

/// Appends the line of a recut, with the number of bounds that were moved, or the line of its refusal.
pub fn build_recut(line: &mut Line, answer: Result<u8, Refusal>)
    requires { HasRoom line.old.items }
    ensures { line.new.items ≡ line.old.items ++ recut_line answer }
{
    match answer {
        Ok(moves) => build_total(line, b"recut,", u64::from(moves)),
        Err(why) => build_refused(line, why),
    }
}

/// Appends the line of a reply of the rows.
fn build_row_reply(line: &mut Line, reply: &RowReply)
    requires { HasRoom line.old.items }
    ensures { line.new.items ≡ line.old.items ++ row_reply_line reply.now }
{
    match reply {
        RowReply::Done => build_ok(line),
        RowReply::Row(row) => build_subscriber(line, row),
        RowReply::Numbers(numbers) => build_numbers(line, numbers),
        RowReply::AccessRow {
            data1,
            data2,
            data3,
            data4,
        } => build_access(line, *data1, *data2, *data3, *data4),
        RowReply::Refused(why) => build_refused(line, *why),
    }
}

/// Appends the line `ok`, or the line of a refusal.
pub fn build_done(line: &mut Line, done: Result<(), Refusal>)
    requires { HasRoom line.old.items }
    ensures { line.new.items ≡ line.old.items ++ reply_line (edited_reply done) }
{
    match done {
        Ok(()) => build_ok(line),
        Err(why) => build_refused(line, why),
    }
}

/// Appends the line of a reply.
pub fn build_reply(line: &mut Line, reply: &Reply)
    requires { HasRoom line.old.items }
    ensures { line.new.items ≡ line.old.items ++ reply_line reply.now }
{
    match reply {
        Reply::Rows(rows) => build_row_reply(line, rows),
        Reply::Posted(cells) => build_total(line, b"posted,", u64::from(*cells)),
        Reply::Given { piece, lo, hi } => {
            let region = Region {
                lo: *lo,
                hi: *hi,
                place: Place::Piece(*piece),
            };
            build_region(line, &region);
        }
        Reply::Taken { piece, part } => build_taken(line, *piece, *part),
        Reply::Divided { part, lo, hi } => build_part_change(line, b"divided,", *part, *lo, *hi),
        Reply::Dissolved { part, lo, hi } => build_part_change(
            line,
            b"dissolved,",
            *part,
            *lo,
            *hi,
        ),
        Reply::Refused(why) => build_refused(line, *why),
    }
}
