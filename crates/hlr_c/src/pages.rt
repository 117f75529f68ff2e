//! Rows of a table from a key on, as many as C has room for, and the width of a zone.
ghost use Rattle.std.specs.Prelude.{◌≡◌, map};
ghost use Rattle.tatp_actions.specs.Listed.{AreFilled, rows_listed, subscribers_from, access_from, facilities_from, forwardings_from};
ghost use Rattle.hlr_owners.specs.Owners.{AllHome, book_in};
ghost use Rattle.hlr_c.specs.Call.{IsAtHome, IsCall};
ghost use Rattle.hlr_c.specs.Pages.{IsPage, IsWidthTold};
ghost use Rattle.hlr_c.specs.declared.codes.TheConstants.{AWAY, DONE, NOT_OPEN};

use crate::codes::DONE;
use crate::handle::{Hlr, with_register, with_register_at_home};
use crate::listing::facility_for_c;
use crate::reads::subscriber_for_c;
use crate::rows::{HlrAccess, HlrFacility, HlrForwardingRow, HlrSubscriber};
use hlr_core::{Access, Facility, Forwarding, FromRow, KeyFields, Register, Subscriber, TableRow};
use std::alloc::Global;

impl FromRow<Subscriber> for HlrSubscriber {
    ghost of_row = { λ row. row };

    fn from_row(row: &Subscriber) -> HlrSubscriber {
        subscriber_for_c(row)
    }
}

impl FromRow<Access> for HlrAccess {
    ghost of_row = { λ row. row };

    fn from_row(row: &Access) -> HlrAccess {
        HlrAccess {
            s_id: u64::from(row.s_id()),
            ai_type: u64::from(row.ai_type()),
            data1: u64::from(row.data1()),
            data2: u64::from(row.data2()),
            data3: row.data3().bytes(),
            data4: row.data4().bytes(),
        }
    }
}

impl FromRow<Facility> for HlrFacility {
    ghost of_row = { λ row. row };

    fn from_row(row: &Facility) -> HlrFacility {
        facility_for_c(row)
    }
}

impl FromRow<Forwarding> for HlrForwardingRow {
    ghost of_row = { λ row. row };

    fn from_row(row: &Forwarding) -> HlrForwardingRow {
        HlrForwardingRow {
            s_id: u64::from(row.s_id()),
            sf_type: u64::from(row.sf_type()),
            start_time: u64::from(row.start_time()),
            end_time: u64::from(row.end_time()),
            numberx: row.numberx().value(),
        }
    }
}

/// Writes the first rows of a table from a key on, and how many they are.
fn write_page<V: TableRow, T: FromRow<V>>(
    register: &Register,
    from: &KeyFields,
    rows: &mut [T],
    count: &mut u64,
) -> u8
    requires { AllHome register.now.owners }
    ensures done { result ≡ DONE }
    ensures filled { AreFilled (map T.of_row (rows_listed V.fields from.now (V.table (book_in register.now.owners)))) rows.old count.new rows.new }
{
    *count = register.write_rows::<V, T>(from, rows) as u64;
    DONE
}

fn write_subscribers(
    register: &Register,
    s_id: u64,
    rows: &mut [HlrSubscriber],
    count: &mut u64,
) -> u8
    requires { AllHome register.now.owners }
    ensures { IsPage (subscribers_from s_id) rows.old register.now (result, (rows.new, count.new)) register.now }
{
    let from = KeyFields {
        s_id,
        kind: 0,
        start_time: 0,
    };
    write_page::<Subscriber, HlrSubscriber>(register, &from, rows, count)
}

fn write_accesses(
    register: &Register,
    s_id: u64,
    ai_type: u64,
    rows: &mut [HlrAccess],
    count: &mut u64,
) -> u8
    requires { AllHome register.now.owners }
    ensures { IsPage (access_from s_id ai_type) rows.old register.now (result, (rows.new, count.new)) register.now }
{
    let from = KeyFields {
        s_id,
        kind: ai_type,
        start_time: 0,
    };
    write_page::<Access, HlrAccess>(register, &from, rows, count)
}

fn write_facilities(
    register: &Register,
    s_id: u64,
    sf_type: u64,
    rows: &mut [HlrFacility],
    count: &mut u64,
) -> u8
    requires { AllHome register.now.owners }
    ensures { IsPage (facilities_from s_id sf_type) rows.old register.now (result, (rows.new, count.new)) register.now }
{
    let from = KeyFields {
        s_id,
        kind: sf_type,
        start_time: 0,
    };
    write_page::<Facility, HlrFacility>(register, &from, rows, count)
}

fn write_forwardings(
    register: &Register,
    s_id: u64,
    sf_type: u64,
    start_time: u64,
    rows: &mut [HlrForwardingRow],
    count: &mut u64,
) -> u8
    requires { AllHome register.now.owners }
    ensures { IsPage (forwardings_from s_id sf_type start_time) rows.old register.now (result, (rows.new, count.new)) register.now }
{
    let from = KeyFields {
        s_id,
        kind: sf_type,
        start_time,
    };
    write_page::<Forwarding, HlrForwardingRow>(register, &from, rows, count)
}

/// Writes the first Subscriber rows with an s_id from one on, and how many they are: as many as there are, and as there
/// is room for. The places behind them stay as they were. `NOT_OPEN`, `AWAY` where any part is out.
#[unsafe(no_mangle)]
pub extern "C" fn hlr_next_subscribers(
    alloc: Global,
    handle: &mut Hlr,
    s_id: u64,
    rows: &mut [HlrSubscriber],
    count: &mut u64,
) -> u8
    ensures answer { IsCall (NOT_OPEN, (rows.old, count.old)) (IsAtHome (AWAY, (rows.old, count.old)) (IsPage (subscribers_from s_id) rows.old))
        handle.old.kept.register (result, (rows.new, count.new)) handle.new.kept.register }
    ensures journal { handle.new.kept.journal ≡ handle.old.kept.journal }
{
    with_register_at_home!(handle, alloc, |register| {
        write_subscribers(register, s_id, rows, count)
    })
}

/// Writes the first Access_Info rows from an access on, by s_id and then ai_type, and how many they are, as
/// `hlr_next_subscribers` does. `NOT_OPEN`, `AWAY` where any part is out.
#[unsafe(no_mangle)]
pub extern "C" fn hlr_next_accesses(
    alloc: Global,
    handle: &mut Hlr,
    s_id: u64,
    ai_type: u64,
    rows: &mut [HlrAccess],
    count: &mut u64,
) -> u8
    ensures answer { IsCall (NOT_OPEN, (rows.old, count.old)) (IsAtHome (AWAY, (rows.old, count.old)) (IsPage (access_from s_id ai_type) rows.old))
        handle.old.kept.register (result, (rows.new, count.new)) handle.new.kept.register }
    ensures journal { handle.new.kept.journal ≡ handle.old.kept.journal }
{
    with_register_at_home!(handle, alloc, |register| {
        write_accesses(register, s_id, ai_type, rows, count)
    })
}

/// Writes the first Special_Facility rows from a facility on, by s_id and then sf_type, and how many they are, as
/// `hlr_next_subscribers` does. `NOT_OPEN`, `AWAY` where any part is out.
#[unsafe(no_mangle)]
pub extern "C" fn hlr_next_facilities(
    alloc: Global,
    handle: &mut Hlr,
    s_id: u64,
    sf_type: u64,
    rows: &mut [HlrFacility],
    count: &mut u64,
) -> u8
    ensures answer { IsCall (NOT_OPEN, (rows.old, count.old)) (IsAtHome (AWAY, (rows.old, count.old)) (IsPage (facilities_from s_id sf_type) rows.old))
        handle.old.kept.register (result, (rows.new, count.new)) handle.new.kept.register }
    ensures journal { handle.new.kept.journal ≡ handle.old.kept.journal }
{
    with_register_at_home!(handle, alloc, |register| {
        write_facilities(register, s_id, sf_type, rows, count)
    })
}

/// Writes the first Call_Forwarding rows from a forwarding on, by s_id, then sf_type, then start_time, and how many
/// they are, as `hlr_next_subscribers` does. `NOT_OPEN`, `AWAY` where any part is out.
#[unsafe(no_mangle)]
pub extern "C" fn hlr_next_forwardings(
    alloc: Global,
    handle: &mut Hlr,
    s_id: u64,
    sf_type: u64,
    start_time: u64,
    rows: &mut [HlrForwardingRow],
    count: &mut u64,
) -> u8
    ensures answer { IsCall (NOT_OPEN, (rows.old, count.old)) (IsAtHome (AWAY, (rows.old, count.old)) (IsPage (forwardings_from s_id sf_type start_time) rows.old))
        handle.old.kept.register (result, (rows.new, count.new)) handle.new.kept.register }
    ensures journal { handle.new.kept.journal ≡ handle.old.kept.journal }
{
    with_register_at_home!(handle, alloc, |register| {
        write_forwardings(register, s_id, sf_type, start_time, rows, count)
    })
}

fn write_width(register: &Register, width: &mut u64) -> u8
    ensures { IsWidthTold register.now (result, width.new) register.now }
{
    *width = u64::from(register.width());
    DONE
}

/// Tells the width of a zone, 1..=524,288, whoever is out. `NOT_OPEN`.
#[unsafe(no_mangle)]
pub extern "C" fn hlr_width(alloc: Global, handle: &mut Hlr, width: &mut u64) -> u8
    ensures answer { IsCall (NOT_OPEN, width.old) IsWidthTold
        handle.old.kept.register (result, width.new) handle.new.kept.register }
    ensures journal { handle.new.kept.journal ≡ handle.old.kept.journal }
{
    with_register!(handle, alloc, |register| {
        write_width(register.register(), width)
    })
}
