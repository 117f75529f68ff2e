//! Many queries in one call, on a register or on a lent part.
ghost use Rattle.std.specs.Prelude.{◌≡◌, ◌<◌, ◌≤◌, ◌-◌, ℕ, IsTrue, false, [], length};
ghost use Rattle.hlr_c.specs.Inside.{AnswersFrom, AreTold, AreWritten, IsBlock};
ghost use Rattle.hlr_c.specs.Many.{AreAnswered, AreAsMany, IsManyRead};

use crate::codes::DONE;
use hlr_core::{ArrayVec, Refusal};

/// A query of a register or of a part, whose answer is a row or numbers.
pub(crate) trait Question<Of, Found, Row>: Telling<Found, Row> {
    // How the query is answered, given what the row was before.
    ghost is_read: { Self → Row → Of → ℕ × Row → Of → Type 0 };

    /// Answers the query. It writes the row if the code is `DONE`.
    fn ask(&self, of: &Of, row: &mut Row) -> u8
        ensures { is_read self.now row.old of.now (result, row.new) of.now };

    /// Puts what is found for up to 16 queries into an empty list, with overlapping memory accesses, and returns
    /// whether it did.
    fn copy_block(of: &Of, asked: &[Self], found: &mut ArrayVec<Found, 16>) -> bool
        requires few { length asked.now ≤ 16 }
        requires empty { found.old.items ≡ [] }
        ensures { IsTrue result → AreTold is_read Self.told of.now asked.now found.new.items };
}

/// A query whose answer is written from what was found for it.
pub(crate) trait Telling<Found, Row>: Sized {
    // What is written and returned for it, given what the row was before.
    ghost told: { Self → Row → Found → ℕ × Row };

    /// Writes what was found for the query, and returns the code.
    fn write(&self, found: &Found, row: &mut Row) -> u8
        ensures { (result, row.new) ≡ told self.now row.old found.now };
}

/// Writes what was found for the queries from one place up to another.
fn write_block<Found, Row, Q: Telling<Found, Row>>(
    asked: &[Q],
    from: usize,
    to: usize,
    found: &[Found],
    rows: &mut [Row],
    codes: &mut [u8],
)
    requires as_many { AreAsMany asked.now (rows.old, codes.old) }
    requires block { IsBlock from to (length asked.now) }
    requires found { length found.now ≡ to - from }
    ensures { AreWritten Q.told asked.now found.now from (rows.old, codes.old) (rows.new, codes.new) to }
{
    for at in from..to {
        codes[at] = asked[at].write(&found[at - from], &mut rows[at]);
    }
}

/// Answers the queries from one place up to another, at most 16, with overlapping memory accesses, and returns whether
/// it did. If it didn't, no row and no code is written. The list is for what is found.
fn ask_block<Of, Found: Default + Drop, Row, Q: Question<Of, Found, Row>>(
    of: &Of,
    asked: &[Q],
    from: usize,
    to: usize,
    found: &mut ArrayVec<Found, 16>,
    rows: &mut [Row],
    codes: &mut [u8],
) -> bool
    requires as_many { AreAsMany asked.now (rows.old, codes.old) }
    requires block { IsBlock from to (length asked.now) }
    ensures done { IsTrue result → AnswersFrom (λ question row found. Q.is_read question row of.now found of.now) asked.now from to (rows.old, codes.old) (rows.new, codes.new) }
    ensures none { result ≡ false → (rows.new ≡ rows.old) × (codes.new ≡ codes.old) }
{
    found.clear();
    if !Q::copy_block(of, &asked[from..to], found) {
        return false;
    }
    write_block(asked, from, to, found.as_slice(), rows, codes);
    true
}

/// Returns where a block ends that begins at a place, which is 16 places later, or at the end of the queries.
fn block_end(from: usize, count: usize) -> usize
    requires { from < count }
    ensures block { IsBlock from result count }
    ensures some { from < result }
{
    if count - from < 16 { count } else { from + 16 }
}

/// Answers the queries from one place up to another, one after another.
fn ask_each<Of, Found, Row, Q: Question<Of, Found, Row>>(
    of: &Of,
    asked: &[Q],
    from: usize,
    to: usize,
    rows: &mut [Row],
    codes: &mut [u8],
)
    requires as_many { AreAsMany asked.now (rows.old, codes.old) }
    requires block { IsBlock from to (length asked.now) }
    ensures { AnswersFrom (λ question row found. Q.is_read question row of.now found of.now) asked.now from to (rows.old, codes.old) (rows.new, codes.new) }
{
    for at in from..to {
        codes[at] = asked[at].ask(of, &mut rows[at]);
    }
}

/// Answers all queries, with overlapping memory accesses where it can.
fn ask_all<Of, Found: Default + Drop, Row, Q: Question<Of, Found, Row>>(
    of: &Of,
    asked: &[Q],
    found: &mut ArrayVec<Found, 16>,
    rows: &mut [Row],
    codes: &mut [u8],
)
    requires { AreAsMany asked.now (rows.old, codes.old) }
    ensures { AreAnswered (λ question row found. Q.is_read question row of.now found of.now) asked.now rows.old (rows.new, codes.new) }
{
    let mut from = 0;
    while from < asked.len() {
        let to = block_end(from, asked.len());
        if !ask_block(of, asked, from, to, found, rows, codes) {
            ask_each(of, asked, from, to, rows, codes);
        }
        from = to;
    }
}

/// Answers all queries. It returns `Field` if there aren't as many rows and codes as queries, and then nothing is
/// written.
pub(crate) fn ask_many<Of, Found: Default + Drop, Row, Q: Question<Of, Found, Row>>(
    of: &Of,
    asked: &[Q],
    found: &mut ArrayVec<Found, 16>,
    rows: &mut [Row],
    codes: &mut [u8],
) -> u8
    ensures { IsManyRead Q.is_read asked.now (rows.old, codes.old) of.now (result, (rows.new, codes.new)) of.now }
{
    if rows.len() != asked.len() || codes.len() != asked.len() {
        return Refusal::Field.code();
    }
    ask_all(of, asked, found, rows, codes);
    DONE
}
