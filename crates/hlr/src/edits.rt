//! The records that change rows, each done by one call of the register.
ghost use Rattle.std.specs.Prelude.{Some};
ghost use Rattle.csv.specs.Records.{fields_of};
ghost use Rattle.hlr_owners.specs.Owners.{AllHome, store_in};
ghost use Rattle.hlr_core.specs.Step.{edited_reply};
ghost use Rattle.hlr.specs.Lines.{reply_line};
ghost use Rattle.hlr.specs.Records.{command_named};
ghost use Rattle.hlr.specs.Text.{CommandText};
ghost use Rattle.hlr.specs.declared.records.Word.TheVariants as word;

use crate::events::{
    read_acc, read_active, read_dcf, read_fac, read_icf, read_number, read_sub, read_ul, read_usd,
};
use csv::ByteRecord;
use hlr_core::Register;
use tatp_rows::Refusal;

/// Does `usd,S,sf_type,bit_1,data_a`. Its refusals, in order, are `Syntax`, `Field`, `Moving`, `NoSubscriber`, and
/// `NoFacility`.
pub fn update_subscriber(row: &ByteRecord, register: &mut Register) -> Result<(), Refusal>
    requires { AllHome register.old.owners }
    ensures text { CommandText (fields_of row.now) (command_named (Some word.Usd) (fields_of row.now)) (store_in register.old) (reply_line (edited_reply result)) (store_in register.new) }
    ensures home { AllHome register.new.owners }
{
    let (s_id, sf_type, bit_1, data_a) = read_usd(row)?;
    register.update_subscriber(s_id, sf_type, bit_1, data_a)
}

/// Does `ul,N,vlr`. Its refusals, in order, are `Syntax`, `Field`, `NoNumber`, and `Moving`.
pub fn update_location(row: &ByteRecord, register: &mut Register) -> Result<(), Refusal>
    requires { AllHome register.old.owners }
    ensures text { CommandText (fields_of row.now) (command_named (Some word.Ul) (fields_of row.now)) (store_in register.old) (reply_line (edited_reply result)) (store_in register.new) }
    ensures home { AllHome register.new.owners }
{
    let (sub_nbr, vlr_location) = read_ul(row)?;
    register.update_location(sub_nbr, vlr_location)
}

/// Does `icf,N,sf_type,start_time,end_time,numberx`. Its refusals, in order, are `Syntax`, `Field`, `NoNumber`,
/// `Moving`, `NoFacility`, `Exists`, and `Memory`.
pub fn insert_forwarding(row: &ByteRecord, register: &mut Register) -> Result<(), Refusal>
    requires { AllHome register.old.owners }
    ensures text { CommandText (fields_of row.now) (command_named (Some word.Icf) (fields_of row.now)) (store_in register.old) (reply_line (edited_reply result)) (store_in register.new) }
    ensures home { AllHome register.new.owners }
{
    let (sub_nbr, sf_type, start_time, end_time, numberx) = read_icf(row)?;
    register.insert_forwarding(sub_nbr, sf_type, start_time, end_time, numberx)
}

/// Does `dcf,N,sf_type,start_time`. Its refusals, in order, are `Syntax`, `Field`, `NoNumber`, `Moving`, and
/// `NoForwarding`.
pub fn delete_forwarding(row: &ByteRecord, register: &mut Register) -> Result<(), Refusal>
    requires { AllHome register.old.owners }
    ensures text { CommandText (fields_of row.now) (command_named (Some word.Dcf) (fields_of row.now)) (store_in register.old) (reply_line (edited_reply result)) (store_in register.new) }
    ensures home { AllHome register.new.owners }
{
    let (sub_nbr, sf_type, start_time) = read_dcf(row)?;
    register.delete_forwarding(sub_nbr, sf_type, start_time)
}

/// Does `sub,S,N,BITS,HEXES,BYTES,msc,vlr`. Its refusals, in order, are `Syntax`, `Field`, `Moving`, `Exists`,
/// `NumberTaken`, and `Memory`.
pub fn add_subscriber(row: &ByteRecord, register: &mut Register) -> Result<(), Refusal>
    requires { AllHome register.old.owners }
    ensures text { CommandText (fields_of row.now) (command_named (Some word.Sub) (fields_of row.now)) (store_in register.old) (reply_line (edited_reply result)) (store_in register.new) }
    ensures home { AllHome register.new.owners }
{
    let subscriber = read_sub(row)?;
    register.add_subscriber(subscriber)
}

/// Does `acc,S,ai_type,data1,data2,data3,data4`. Its refusals, in order, are `Syntax`, `Field`, `Moving`,
/// `NoSubscriber`, `Exists`, and `Memory`.
pub fn add_access(row: &ByteRecord, register: &mut Register) -> Result<(), Refusal>
    requires { AllHome register.old.owners }
    ensures text { CommandText (fields_of row.now) (command_named (Some word.Acc) (fields_of row.now)) (store_in register.old) (reply_line (edited_reply result)) (store_in register.new) }
    ensures home { AllHome register.new.owners }
{
    let access = read_acc(row)?;
    register.add_access(access)
}

/// Does `fac,S,sf_type,is_active,error_cntrl,data_a,data_b`. Its refusals, in order, are `Syntax`, `Field`, `Moving`,
/// `NoSubscriber`, `Exists`, and `Memory`.
pub fn add_facility(row: &ByteRecord, register: &mut Register) -> Result<(), Refusal>
    requires { AllHome register.old.owners }
    ensures text { CommandText (fields_of row.now) (command_named (Some word.Fac) (fields_of row.now)) (store_in register.old) (reply_line (edited_reply result)) (store_in register.new) }
    ensures home { AllHome register.new.owners }
{
    let facility = read_fac(row)?;
    register.add_facility(facility)
}

/// Does `active,S,sf_type,is_active`. Its refusals, in order, are `Syntax`, `Field`, `Moving`, and `NoFacility`.
pub fn set_active(row: &ByteRecord, register: &mut Register) -> Result<(), Refusal>
    requires { AllHome register.old.owners }
    ensures text { CommandText (fields_of row.now) (command_named (Some word.Active) (fields_of row.now)) (store_in register.old) (reply_line (edited_reply result)) (store_in register.new) }
    ensures home { AllHome register.new.owners }
{
    let (s_id, sf_type, is_active) = read_active(row)?;
    register.set_active(s_id, sf_type, is_active)
}

/// Does `number,S,N`. Its refusals, in order, are `Syntax`, `Field`, `Moving`, `NoSubscriber`, `NumberTaken`, and
/// `Memory`.
pub fn set_number(row: &ByteRecord, register: &mut Register) -> Result<(), Refusal>
    requires { AllHome register.old.owners }
    ensures text { CommandText (fields_of row.now) (command_named (Some word.Number) (fields_of row.now)) (store_in register.old) (reply_line (edited_reply result)) (store_in register.new) }
    ensures home { AllHome register.new.owners }
{
    let (s_id, sub_nbr) = read_number(row)?;
    register.set_number(s_id, sub_nbr)
}
