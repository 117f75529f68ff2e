//! The reports. Their lines follow the replies so far, and end with a line that counts them.
ghost use Rattle.std.specs.Prelude.{◌≡◌, ◌+◌, ◌-◌, ◌*◌, ◌^◌, ◌<◌, ◌≤◌, ◌&&◌, ◌++◌, not, min, true, length, pos, slice_index, slice_index_or};
ghost use Rattle.std.specs.List.{flat_map};
ghost use Rattle.tatp_actions.specs.Cell.{cell};
ghost use Rattle.view_delta.specs.Pending.{is_zero};
ghost use Rattle.hlr_owners.specs.Owners.{AllHome, book_in, store_in};
ghost use Rattle.hlr_owners.specs.Store.{published, unpublished};
ghost use Rattle.hlr.specs.Outgoing.{Adds, outgoing};
ghost use Rattle.hlr.specs.Lines.{number_line};
ghost use Rattle.hlr.specs.Reports.{cells_where, index_text, is_counted, is_standing, regions_text, rows_line, scan_text, standing_line, views_text};
ghost use Rattle.hlr.specs.Text.{proposal_line};
ghost use Rattle.hlr.specs.Inside.{cells_text, is_shown, shown_line, signed_at, total_word};
ghost use Rattle.hlr.specs.Written.{HasRoom};

use crate::lines::{
    Line, SHORT_LINE, build_bounds, build_region, build_total, put_cell, put_counted, put_pair,
};
use crate::sink::{Sink, Stalled, make_room};
use hlr_core::Register;
use number_index::{NumberIndex, Page};
use part_table::Regions;
use tatp_actions::{CELLS, Cells};

/// The counts that a report of the cells shows.
#[derive(Clone, Copy)]
pub enum Counts<'a> {
    /// What is published and what is unposted of each cell.
    Standing {
        /// What is published of each cell.
        published: &'a [i64; CELLS as usize],
        /// What is unposted of each cell.
        unposted: &'a [i64; CELLS as usize],
    },
    /// The counts over the rows.
    Rows(&'a Cells),
}

/// Returns the count of a cell.
fn count_at(counts: &[i64; CELLS as usize], cell: u8) -> i64
    requires { cell < CELLS }
    ensures { result ≡ slice_index_or counts.now cell (pos 0) }
{
    counts[usize::from(cell)]
}

/// Returns whether something is published or unposted.
#[inline(always)]
fn stands(published: i64, unposted: i64) -> bool
    ensures { result ≡ not (is_zero published && is_zero unposted) }
{
    !(published == 0 && unposted == 0)
}

/// Appends a line for each cell of which something is published or unposted, in the order of their numbers, and returns
/// how many lines these are.
fn build_standing(
    published: &[i64; CELLS as usize],
    unposted: &[i64; CELLS as usize],
    line: &mut Line,
) -> u64
    requires { HasRoom line.old.items }
    ensures lines { line.new.items ≡ line.old.items ++ flat_map (standing_line (signed_at published.now) (signed_at unposted.now))
        (cells_where (is_standing (signed_at published.now) (signed_at unposted.now))) }
    ensures count { result ≡ length (cells_where (is_standing (signed_at published.now) (signed_at unposted.now))) }
    ensures len { length line.new.items ≤ length line.old.items + SHORT_LINE * CELLS }
{
    let mut lines = 0;
    for cell in 0..CELLS {
        let published = count_at(published, cell);
        let unposted = count_at(unposted, cell);
        if stands(published, unposted) {
            put_cell(line, u64::from(cell), published, unposted);
            lines += 1;
        }
    }
    lines
}

/// Appends a line for each cell that counts some rows, in the order of their numbers, and returns how many lines these
/// are.
fn build_counted(cells: &Cells, line: &mut Line) -> u64
    requires { HasRoom line.old.items }
    ensures lines { line.new.items ≡ line.old.items ++ flat_map (rows_line (slice_index cells.now))
        (cells_where (is_counted (slice_index cells.now))) }
    ensures count { result ≡ length (cells_where (is_counted (slice_index cells.now))) }
    ensures len { length line.new.items ≤ length line.old.items + SHORT_LINE * CELLS }
{
    let mut lines = 0;
    for cell in 0..CELLS {
        let count = cells.get(cell);
        if count != 0 {
            put_counted(line, u64::from(cell), count);
            lines += 1;
        }
    }
    lines
}

/// Appends the lines of the cells that a report shows, and returns how many these are.
fn build_cells(counts: &Counts<'_>, line: &mut Line) -> u64
    requires { HasRoom line.old.items }
    ensures lines { line.new.items ≡ line.old.items ++ flat_map (shown_line counts.now) (cells_where (is_shown counts.now)) }
    ensures count { result ≡ length (cells_where (is_shown counts.now)) }
    ensures len { length line.new.items ≤ length line.old.items + SHORT_LINE * CELLS }
{
    match counts {
        Counts::Standing {
            published,
            unposted,
        } => build_standing(published, unposted, line),
        Counts::Rows(cells) => build_counted(cells, line),
    }
}

/// Returns the word of a report of the cells, with which its last line begins.
fn total_word(counts: &Counts<'_>) -> &'static [u8]
    ensures word { result.now ≡ total_word counts.now }
    ensures short { length result.now ≤ 6 }
{
    match counts {
        Counts::Standing { .. } => b"views,",
        Counts::Rows(_) => b"scan,",
    }
}

/// Appends a report of the cells: a line for each cell with a count that isn't 0, in the order of their numbers, and
/// then the line that counts them.
pub fn build_counts(counts: &Counts<'_>, line: &mut Line)
    requires { HasRoom line.old.items }
    ensures { line.new.items ≡ line.old.items ++ cells_text counts.now }
{
    let lines = build_cells(counts, line);
    build_total(line, total_word(counts), lines);
}

/// Appends the report of a register's live counts, published and unposted.
///
/// The function is not inlined, because its arrays would otherwise be filled with zeros for each event.
#[inline(never)]
pub fn build_views(register: &Register, line: &mut Line)
    requires home { AllHome register.now.owners }
    requires room { HasRoom line.old.items }
    ensures { line.new.items ≡ line.old.items ++ views_text (published (store_in register.now)) (unpublished (store_in register.now)) }
{
    let counts = Counts::Standing {
        published: &register.published(),
        unposted: &register.unposted(),
    };
    build_counts(&counts, line);
}

/// Appends the report of a register's counts over the rows.
#[inline(never)]
pub fn build_scan(register: &Register, line: &mut Line)
    requires home { AllHome register.now.owners }
    requires room { HasRoom line.old.items }
    ensures { line.new.items ≡ line.old.items ++ scan_text (λ c. cell register.now.width c (book_in register.now.owners)) }
{
    build_counts(&Counts::Rows(&register.recount()), line);
}

/// Appends the lines of a page of the index, each with a number and its subscriber.
fn build_page(page: &Page, line: &mut Line)
    requires { HasRoom line.old.items }
    ensures { line.new.items ≡ line.old.items ++ flat_map number_line page.now.items }
{
    let pairs = page.as_slice();
    for at in 0..pairs.len() {
        let (number, s_id) = pairs[at];
        put_pair(line, number, s_id);
    }
}

/// Makes room, and appends the lines of a page. If the sink fails, some beginning of the replies so far was taken.
fn write_page<S: Sink>(page: &Page, line: &mut Line, sink: &mut S) -> Result<(), Stalled>
    ensures { Adds (flat_map number_line page.now.items) (outgoing line.old.items (S.taken sink.old)) (outgoing line.new.items (S.taken sink.new)) (S.has_stalled sink.new) result }
{
    make_room(line, sink)?;
    build_page(page, line);
    Ok(())
}

/// Returns the number that follows the last one of a page.
fn after_last(pairs: &[(u64, u32)]) -> u64
    requires { 0 < length pairs.now }
    ensures { result ≡ min (2 ^ 64 - 1) ((slice_index_or pairs.now (length pairs.now - 1) (0, 0)).0 + 1) }
{
    let (number, _) = pairs[pairs.len() - 1];
    number.saturating_add(1)
}

/// Writes the report of the numbers: a line for each pair of the index, in the order of the numbers, and then the line
/// that counts them. If the sink fails, some beginning of the replies so far and of the report was taken.
#[inline(never)]
pub fn write_index<S: Sink>(
    index: &NumberIndex,
    line: &mut Line,
    sink: &mut S,
) -> Result<(), Stalled>
    ensures { Adds (index_text index.now) (outgoing line.old.items (S.taken sink.old)) (outgoing line.new.items (S.taken sink.new)) (S.has_stalled sink.new) result }
{
    let mut from = 0u64;
    let mut page = Page::new();
    index.page_from(from, &mut page);
    while !page.is_empty() {
        write_page(&page, line, sink)?;
        from = after_last(page.as_slice());
        index.page_from(from, &mut page);
    }
    make_room(line, sink)?;
    build_total(line, b"index,", index.len());
    Ok(())
}

/// Writes the report of the regions: a line for each, in the order of their ranges, and then the line that counts them.
/// If the sink fails, some beginning of the replies so far and of the report was taken.
#[inline(never)]
pub fn write_regions<S: Sink>(
    regions: &Regions,
    line: &mut Line,
    sink: &mut S,
) -> Result<(), Stalled>
    ensures { Adds (regions_text regions.now) (outgoing line.old.items (S.taken sink.old)) (outgoing line.new.items (S.taken sink.new)) (S.has_stalled sink.new) result }
{
    let regions = regions.list();
    for region in regions {
        make_room(line, sink)?;
        build_region(line, region);
    }
    make_room(line, sink)?;
    build_total(line, b"regions,", regions.len() as u64);
    Ok(())
}

/// Appends the line of bounds by which each part would have about its share of a register's rows, going by what is
/// published.
#[inline(never)]
pub fn build_proposal(register: &Register, line: &mut Line)
    requires home { AllHome register.now.owners }
    requires room { HasRoom line.old.items }
    ensures { line.new.items ≡ line.old.items ++ proposal_line (store_in register.now) }
{
    build_bounds(line, &register.propose());
}
