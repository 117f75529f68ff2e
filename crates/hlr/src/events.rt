//! The records that ask for events, with the fields of each, and the event that it asks for.
ghost use Rattle.std.specs.Prelude.{◌≡◌, Some};
ghost use Rattle.csv.specs.Records.{fields_of};
ghost use Rattle.hlr_core.specs.declared.event.Event.TheVariants as event;
ghost use Rattle.hlr.specs.Inside.{asks, kind_of};
ghost use Rattle.hlr.specs.Records.{command_named};
ghost use Rattle.hlr.specs.declared.records.Kind.TheVariants as kind;
ghost use Rattle.hlr.specs.declared.records.Word.TheVariants as word;

use crate::fields::{parse_byte, parse_bytes, parse_digits, parse_number};
use crate::records::{Word, check_len, field, side_named};
use csv::ByteRecord;
use hlr_core::Event;
use part_table::Side;
use tatp_rows::{Access, Facility, Letters, Number, Refusal, Subscriber};

/// Reads `gsd,S`: the subscriber.
#[inline(always)]
pub fn read_gsd(row: &ByteRecord) -> Result<u64, Refusal>
    ensures { command_named (Some word.Gsd) (fields_of row.now) ≡ asks event.SubscriberData result }
{
    check_len(row, 2)?;
    parse_number(field(row, 1))
}

/// Reads `gnd,S,sf_type,start_time,end_time`.
#[inline(always)]
pub fn read_gnd(row: &ByteRecord) -> Result<(u64, u64, u64, u64), Refusal>
    ensures { command_named (Some word.Gnd) (fields_of row.now) ≡ asks (λ f. event.NewDestination f.0 f.1 f.2 f.3) result }
{
    check_len(row, 5)?;
    let s_id = parse_number(field(row, 1))?;
    let sf_type = parse_number(field(row, 2))?;
    let start_time = parse_number(field(row, 3))?;
    let end_time = parse_number(field(row, 4))?;
    Ok((s_id, sf_type, start_time, end_time))
}

/// Reads `gad,S,ai_type`.
#[inline(always)]
pub fn read_gad(row: &ByteRecord) -> Result<(u64, u64), Refusal>
    ensures { command_named (Some word.Gad) (fields_of row.now) ≡ asks (λ f. event.AccessData f.0 f.1) result }
{
    check_len(row, 3)?;
    let s_id = parse_number(field(row, 1))?;
    let ai_type = parse_number(field(row, 2))?;
    Ok((s_id, ai_type))
}

/// Reads `usd,S,sf_type,bit_1,data_a`.
#[inline(always)]
pub fn read_usd(row: &ByteRecord) -> Result<(u64, u64, u64, u64), Refusal>
    ensures { command_named (Some word.Usd) (fields_of row.now) ≡ asks (λ f. event.UpdateSubscriber f.0 f.1 f.2 f.3) result }
{
    check_len(row, 5)?;
    let s_id = parse_number(field(row, 1))?;
    let sf_type = parse_number(field(row, 2))?;
    let bit_1 = parse_number(field(row, 3))?;
    let data_a = parse_number(field(row, 4))?;
    Ok((s_id, sf_type, bit_1, data_a))
}

/// Reads `ul,N,vlr`.
#[inline(always)]
pub fn read_ul(row: &ByteRecord) -> Result<(Number, u64), Refusal>
    ensures { command_named (Some word.Ul) (fields_of row.now) ≡ asks (λ f. event.UpdateLocation f.0 f.1) result }
{
    check_len(row, 3)?;
    let sub_nbr = Number::from_digits(field(row, 1))?;
    let vlr_location = parse_number(field(row, 2))?;
    Ok((sub_nbr, vlr_location))
}

/// Reads `icf,N,sf_type,start_time,end_time,numberx`.
#[inline(always)]
pub fn read_icf(row: &ByteRecord) -> Result<(Number, u64, u64, u64, Number), Refusal>
    ensures { command_named (Some word.Icf) (fields_of row.now) ≡ asks (λ f. event.InsertForwarding f.0 f.1 f.2 f.3 f.4) result }
{
    check_len(row, 6)?;
    let sub_nbr = Number::from_digits(field(row, 1))?;
    let sf_type = parse_number(field(row, 2))?;
    let start_time = parse_number(field(row, 3))?;
    let end_time = parse_number(field(row, 4))?;
    let numberx = Number::from_digits(field(row, 5))?;
    Ok((sub_nbr, sf_type, start_time, end_time, numberx))
}

/// Reads `dcf,N,sf_type,start_time`.
#[inline(always)]
pub fn read_dcf(row: &ByteRecord) -> Result<(Number, u64, u64), Refusal>
    ensures { command_named (Some word.Dcf) (fields_of row.now) ≡ asks (λ f. event.DeleteForwarding f.0 f.1 f.2) result }
{
    check_len(row, 4)?;
    let sub_nbr = Number::from_digits(field(row, 1))?;
    let sf_type = parse_number(field(row, 2))?;
    let start_time = parse_number(field(row, 3))?;
    Ok((sub_nbr, sf_type, start_time))
}

/// Reads `sub,S,N,BITS,HEXES,BYTES,msc,vlr`: the row.
#[inline(always)]
pub fn read_sub(row: &ByteRecord) -> Result<Subscriber, Refusal>
    ensures { command_named (Some word.Sub) (fields_of row.now) ≡ asks event.AddSubscriber result }
{
    check_len(row, 8)?;
    let s_id = parse_number(field(row, 1))?;
    let sub_nbr = Number::from_digits(field(row, 2))?;
    let bits = parse_digits::<10>(field(row, 3), 2)?;
    let hexes = parse_digits::<10>(field(row, 4), 16)?;
    let bytes = parse_bytes(field(row, 5))?;
    let msc_location = parse_number(field(row, 6))?;
    let vlr_location = parse_number(field(row, 7))?;
    Subscriber::try_new(
        s_id,
        sub_nbr,
        bits,
        hexes,
        bytes,
        msc_location,
        vlr_location,
    )
}

/// Reads `acc,S,ai_type,data1,data2,data3,data4`: the row.
#[inline(always)]
pub fn read_acc(row: &ByteRecord) -> Result<Access, Refusal>
    ensures { command_named (Some word.Acc) (fields_of row.now) ≡ asks event.AddAccess result }
{
    check_len(row, 7)?;
    let s_id = parse_number(field(row, 1))?;
    let ai_type = parse_number(field(row, 2))?;
    let data1 = parse_byte(field(row, 3))?;
    let data2 = parse_byte(field(row, 4))?;
    let data3 = Letters::<3>::from_bytes(field(row, 5))?;
    let data4 = Letters::<5>::from_bytes(field(row, 6))?;
    Access::try_new(s_id, ai_type, data1, data2, data3, data4)
}

/// Reads `fac,S,sf_type,is_active,error_cntrl,data_a,data_b`: the row.
#[inline(always)]
pub fn read_fac(row: &ByteRecord) -> Result<Facility, Refusal>
    ensures { command_named (Some word.Fac) (fields_of row.now) ≡ asks event.AddFacility result }
{
    check_len(row, 7)?;
    let s_id = parse_number(field(row, 1))?;
    let sf_type = parse_number(field(row, 2))?;
    let is_active = parse_number(field(row, 3))?;
    let error_cntrl = parse_byte(field(row, 4))?;
    let data_a = parse_byte(field(row, 5))?;
    let data_b = Letters::<5>::from_bytes(field(row, 6))?;
    Facility::try_new(s_id, sf_type, is_active, error_cntrl, data_a, data_b)
}

/// Reads `active,S,sf_type,is_active`.
#[inline(always)]
pub fn read_active(row: &ByteRecord) -> Result<(u64, u64, u64), Refusal>
    ensures { command_named (Some word.Active) (fields_of row.now) ≡ asks (λ f. event.SetActive f.0 f.1 f.2) result }
{
    check_len(row, 4)?;
    let s_id = parse_number(field(row, 1))?;
    let sf_type = parse_number(field(row, 2))?;
    let is_active = parse_number(field(row, 3))?;
    Ok((s_id, sf_type, is_active))
}

/// Reads `number,S,N`.
#[inline(always)]
pub fn read_number(row: &ByteRecord) -> Result<(u64, Number), Refusal>
    ensures { command_named (Some word.Number) (fields_of row.now) ≡ asks (λ f. event.SetNumber f.0 f.1) result }
{
    check_len(row, 3)?;
    let s_id = parse_number(field(row, 1))?;
    let sub_nbr = Number::from_digits(field(row, 2))?;
    Ok((s_id, sub_nbr))
}

/// Reads `post,part,limit`.
#[inline(always)]
pub fn read_post(row: &ByteRecord) -> Result<(u64, u64), Refusal>
    ensures { command_named (Some word.Post) (fields_of row.now) ≡ asks (λ f. event.Post f.0 f.1) result }
{
    check_len(row, 3)?;
    let part = parse_number(field(row, 1))?;
    let limit = parse_number(field(row, 2))?;
    Ok((part, limit))
}

/// Makes the event that a record of the word `gsd` asks for.
fn gsd_event(row: &ByteRecord) -> Result<Event, Refusal>
    ensures { command_named (Some word.Gsd) (fields_of row.now) ≡ asks (λ e. e) result }
{
    let s_id = read_gsd(row)?;
    Ok(Event::SubscriberData { s_id })
}

/// Makes the event that a record of the word `gnd` asks for.
fn gnd_event(row: &ByteRecord) -> Result<Event, Refusal>
    ensures { command_named (Some word.Gnd) (fields_of row.now) ≡ asks (λ e. e) result }
{
    let (s_id, sf_type, start_time, end_time) = read_gnd(row)?;
    Ok(Event::NewDestination {
        s_id,
        sf_type,
        start_time,
        end_time,
    })
}

/// Makes the event that a record of the word `gad` asks for.
fn gad_event(row: &ByteRecord) -> Result<Event, Refusal>
    ensures { command_named (Some word.Gad) (fields_of row.now) ≡ asks (λ e. e) result }
{
    let (s_id, ai_type) = read_gad(row)?;
    Ok(Event::AccessData { s_id, ai_type })
}

/// Makes the event that a record of the word `usd` asks for.
fn usd_event(row: &ByteRecord) -> Result<Event, Refusal>
    ensures { command_named (Some word.Usd) (fields_of row.now) ≡ asks (λ e. e) result }
{
    let (s_id, sf_type, bit_1, data_a) = read_usd(row)?;
    Ok(Event::UpdateSubscriber {
        s_id,
        sf_type,
        bit_1,
        data_a,
    })
}

/// Makes the event that a record of the word `ul` asks for.
fn ul_event(row: &ByteRecord) -> Result<Event, Refusal>
    ensures { command_named (Some word.Ul) (fields_of row.now) ≡ asks (λ e. e) result }
{
    let (sub_nbr, vlr_location) = read_ul(row)?;
    Ok(Event::UpdateLocation {
        sub_nbr,
        vlr_location,
    })
}

/// Makes the event that a record of the word `icf` asks for.
fn icf_event(row: &ByteRecord) -> Result<Event, Refusal>
    ensures { command_named (Some word.Icf) (fields_of row.now) ≡ asks (λ e. e) result }
{
    let (sub_nbr, sf_type, start_time, end_time, numberx) = read_icf(row)?;
    Ok(Event::InsertForwarding {
        sub_nbr,
        sf_type,
        start_time,
        end_time,
        numberx,
    })
}

/// Makes the event that a record of the word `dcf` asks for.
fn dcf_event(row: &ByteRecord) -> Result<Event, Refusal>
    ensures { command_named (Some word.Dcf) (fields_of row.now) ≡ asks (λ e. e) result }
{
    let (sub_nbr, sf_type, start_time) = read_dcf(row)?;
    Ok(Event::DeleteForwarding {
        sub_nbr,
        sf_type,
        start_time,
    })
}

/// Makes the event that a record of the word `active` asks for.
fn active_event(row: &ByteRecord) -> Result<Event, Refusal>
    ensures { command_named (Some word.Active) (fields_of row.now) ≡ asks (λ e. e) result }
{
    let (s_id, sf_type, is_active) = read_active(row)?;
    Ok(Event::SetActive {
        s_id,
        sf_type,
        is_active,
    })
}

/// Makes the event that a record of the word `number` asks for.
fn number_event(row: &ByteRecord) -> Result<Event, Refusal>
    ensures { command_named (Some word.Number) (fields_of row.now) ≡ asks (λ e. e) result }
{
    let (s_id, sub_nbr) = read_number(row)?;
    Ok(Event::SetNumber { s_id, sub_nbr })
}

/// Makes the event that a record of the word `post` asks for.
fn post_event(row: &ByteRecord) -> Result<Event, Refusal>
    ensures { command_named (Some word.Post) (fields_of row.now) ≡ asks (λ e. e) result }
{
    let (part, limit) = read_post(row)?;
    Ok(Event::Post { part, limit })
}

/// Makes the event that a record of the word `give` asks for: `give,part,side,at`.
fn give_event(row: &ByteRecord) -> Result<Event, Refusal>
    ensures { command_named (Some word.Give) (fields_of row.now) ≡ asks (λ e. e) result }
{
    check_len(row, 4)?;
    let side = side_named(field(row, 2))?;
    let part = parse_number(field(row, 1))?;
    let at = parse_number(field(row, 3))?;
    Ok(Event::Give { part, side, at })
}

/// Makes the event that a record of the word `take` asks for: `take,piece,part`.
fn take_event(row: &ByteRecord) -> Result<Event, Refusal>
    ensures { command_named (Some word.Take) (fields_of row.now) ≡ asks (λ e. e) result }
{
    check_len(row, 3)?;
    let piece = parse_number(field(row, 1))?;
    let part = parse_number(field(row, 2))?;
    Ok(Event::Take { piece, part })
}

/// Makes the event that a record of the word `divide` asks for: `divide,part,at`.
fn divide_event(row: &ByteRecord) -> Result<Event, Refusal>
    ensures { command_named (Some word.Divide) (fields_of row.now) ≡ asks (λ e. e) result }
{
    check_len(row, 3)?;
    let part = parse_number(field(row, 1))?;
    let at = parse_number(field(row, 2))?;
    Ok(Event::Divide { part, at })
}

/// Makes the event that a record of the word `dissolve` asks for: `dissolve,part`.
fn dissolve_event(row: &ByteRecord) -> Result<Event, Refusal>
    ensures { command_named (Some word.Dissolve) (fields_of row.now) ≡ asks (λ e. e) result }
{
    check_len(row, 2)?;
    let part = parse_number(field(row, 1))?;
    Ok(Event::Dissolve { part })
}

/// Makes the event that a record of the word `sub` asks for.
fn sub_event(row: &ByteRecord) -> Result<Event, Refusal>
    ensures { command_named (Some word.Sub) (fields_of row.now) ≡ asks (λ e. e) result }
{
    Ok(Event::AddSubscriber(read_sub(row)?))
}

/// Makes the event that a record of the word `acc` asks for.
fn acc_event(row: &ByteRecord) -> Result<Event, Refusal>
    ensures { command_named (Some word.Acc) (fields_of row.now) ≡ asks (λ e. e) result }
{
    Ok(Event::AddAccess(read_acc(row)?))
}

/// Makes the event that a record of the word `fac` asks for.
fn fac_event(row: &ByteRecord) -> Result<Event, Refusal>
    ensures { command_named (Some word.Fac) (fields_of row.now) ≡ asks (λ e. e) result }
{
    Ok(Event::AddFacility(read_fac(row)?))
}

/// Makes the event for which a record asks, if its word is one that asks for an event.
pub fn event_of(word: Word, row: &ByteRecord) -> Result<Event, Refusal>
    requires { kind_of word ≡ kind.Event }
    ensures { command_named (Some word) (fields_of row.now) ≡ asks (λ e. e) result }
{
    match word {
        Word::Gsd => gsd_event(row),
        Word::Gad => gad_event(row),
        Word::Gnd => gnd_event(row),
        Word::Usd => usd_event(row),
        Word::Ul => ul_event(row),
        Word::Icf => icf_event(row),
        Word::Dcf => dcf_event(row),
        Word::Sub => sub_event(row),
        Word::Acc => acc_event(row),
        Word::Fac => fac_event(row),
        Word::Active => active_event(row),
        Word::Number => number_event(row),
        Word::Post => post_event(row),
        Word::Give => give_event(row),
        Word::Take => take_event(row),
        Word::Divide => divide_event(row),
        Word::Dissolve => dissolve_event(row),
        _ => unreachable!(),
    }
}
