//! The replies to reads, built from the rows that the register finds.
ghost use Rattle.std.specs.Prelude.{Some, IfOk, IfErr};
ghost use Rattle.csv.specs.Records.{fields_of};
ghost use Rattle.hlr_owners.specs.Owners.{AllHome, store_in};
ghost use Rattle.hlr.specs.Lines.{access_line, numbers_line, refused_line, subscriber_line};
ghost use Rattle.hlr.specs.Records.{command_named};
ghost use Rattle.hlr.specs.declared.records.Word.TheVariants as word;
ghost use Rattle.hlr.specs.Inside.{AddsAnswer};
ghost use Rattle.hlr.specs.Text.{CommandText};
ghost use Rattle.hlr.specs.Written.{HasRoom};

use crate::events::{read_gad, read_gnd, read_gsd};
use crate::lines::{Line, build_access, build_numbers, build_refused, build_subscriber};
use arrayvec::ArrayVec;
use csv::ByteRecord;
use hlr_core::Register;
use tatp_rows::{Access, Number, Refusal, Subscriber};

/// Finds the row that `gsd,S` reads. Its refusals, in order, are `Syntax`, `Field`, `Moving`, and `NoSubscriber`.
fn find_subscriber<'a>(row: &ByteRecord, register: &'a Register) -> Result<&'a Subscriber, Refusal>
    requires { AllHome register.now.owners }
    ensures found { IfOk result (λ found. CommandText (fields_of row.now) (command_named (Some word.Gsd) (fields_of row.now)) (store_in register.now) (subscriber_line found.now) (store_in register.now)) }
    ensures refused { IfErr result (λ why. CommandText (fields_of row.now) (command_named (Some word.Gsd) (fields_of row.now)) (store_in register.now) (refused_line why) (store_in register.now)) }
{
    register.lend_subscriber(read_gsd(row)?)
}

/// Finds the row that `gad,S,ai_type` reads. Its refusals, in order, are `Syntax`, `Field`, `Moving`, and `NoAccess`.
fn find_access(row: &ByteRecord, register: &Register) -> Result<Access, Refusal>
    requires { AllHome register.now.owners }
    ensures found { IfOk result (λ found. CommandText (fields_of row.now) (command_named (Some word.Gad) (fields_of row.now)) (store_in register.now)
        (access_line found.data1 found.data2 found.data3 found.data4) (store_in register.now)) }
    ensures refused { IfErr result (λ why. CommandText (fields_of row.now) (command_named (Some word.Gad) (fields_of row.now)) (store_in register.now) (refused_line why) (store_in register.now)) }
{
    let (s_id, ai_type) = read_gad(row)?;
    register.lend_access(s_id, ai_type)
}

/// Finds the numbers that `gnd,S,sf_type,start_time,end_time` reads. Its refusals, in order, are `Syntax`, `Field`,
/// `Moving`, and `NoDestination`.
fn find_numbers(row: &ByteRecord, register: &Register) -> Result<ArrayVec<Number, 3>, Refusal>
    requires { AllHome register.now.owners }
    ensures found { IfOk result (λ found. CommandText (fields_of row.now) (command_named (Some word.Gnd) (fields_of row.now)) (store_in register.now) (numbers_line found.items) (store_in register.now)) }
    ensures refused { IfErr result (λ why. CommandText (fields_of row.now) (command_named (Some word.Gnd) (fields_of row.now)) (store_in register.now) (refused_line why) (store_in register.now)) }
{
    let (s_id, sf_type, start_time, end_time) = read_gnd(row)?;
    register.destinations(s_id, sf_type, start_time, end_time)
}

/// Appends the reply to a record whose word is `gsd`: `gsd,S`.
pub fn build_gsd(row: &ByteRecord, register: &Register, line: &mut Line)
    requires home { AllHome register.now.owners }
    requires room { HasRoom line.old.items }
    ensures { AddsAnswer (fields_of row.now) (command_named (Some word.Gsd) (fields_of row.now)) (store_in register.now) (store_in register.now) line.old.items line.new.items }
{
    match find_subscriber(row, register) {
        Ok(found) => build_subscriber(line, found),
        Err(why) => build_refused(line, why),
    }
}

/// Appends the reply to a record whose word is `gad`: `gad,S,ai_type`.
pub fn build_gad(row: &ByteRecord, register: &Register, line: &mut Line)
    requires home { AllHome register.now.owners }
    requires room { HasRoom line.old.items }
    ensures { AddsAnswer (fields_of row.now) (command_named (Some word.Gad) (fields_of row.now)) (store_in register.now) (store_in register.now) line.old.items line.new.items }
{
    match find_access(row, register) {
        Ok(found) => build_access(
            line,
            found.data1(),
            found.data2(),
            found.data3(),
            found.data4(),
        ),
        Err(why) => build_refused(line, why),
    }
}

/// Appends the reply to a record whose word is `gnd`: `gnd,S,sf_type,start_time,end_time`.
pub fn build_gnd(row: &ByteRecord, register: &Register, line: &mut Line)
    requires home { AllHome register.now.owners }
    requires room { HasRoom line.old.items }
    ensures { AddsAnswer (fields_of row.now) (command_named (Some word.Gnd) (fields_of row.now)) (store_in register.now) (store_in register.now) line.old.items line.new.items }
{
    match find_numbers(row, register) {
        Ok(found) => build_numbers(line, &found),
        Err(why) => build_refused(line, why),
    }
}
