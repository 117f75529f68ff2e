//! Rows of a table from a key on, of a holding's part or of a loose piece, written into a list of the caller's.
ghost use Rattle.std.specs.Prelude.{◌≤◌, length, map};
ghost use Rattle.tatp_actions.specs.Listed.{AreWritten, rows_listed};

use crate::holding::Holding;
use crate::piece::Piece;
use tatp_actions::{FromRow, KeyFields, TableRow};

impl Holding {
    /// Writes the rows of a table from a key on, in key order, into a list from a place on, as many as it has room for,
    /// and gives the place behind them. It takes no memory.
    pub fn write_rows<V: TableRow, T: FromRow<V>>(
        &self,
        from: &KeyFields,
        rows: &mut [T],
        place: usize,
    ) -> usize
        requires { place ≤ length rows.old }
        ensures { AreWritten (map T.of_row (rows_listed V.fields from.now (V.table self.now.part.book))) place rows.old result rows.new }
    {
        V::write_rows(&self.part, from, rows, place)
    }
}

impl Piece {
    /// Writes the rows of a table from a key on, in key order, into a list from a place on, as many as it has room for,
    /// and gives the place behind them. It takes no memory.
    pub fn write_rows<V: TableRow, T: FromRow<V>>(
        &self,
        from: &KeyFields,
        rows: &mut [T],
        place: usize,
    ) -> usize
        requires { place ≤ length rows.old }
        ensures { AreWritten (map T.of_row (rows_listed V.fields from.now (V.table self.now.part.book))) place rows.old result rows.new }
    {
        V::write_rows(&self.part, from, rows, place)
    }
}
