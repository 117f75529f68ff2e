//! The replies to the records that post, that give and take, and that divide and dissolve parts. None of these
//! functions is inlined, because the space for their events and replies would otherwise be filled with zeros for each
//! other record.
ghost use Rattle.std.specs.Prelude.{◌≡◌, Some};
ghost use Rattle.csv.specs.Records.{fields_of};
ghost use Rattle.hlr_owners.specs.Owners.{AllHome, store_in};
ghost use Rattle.hlr.specs.Inside.{AddsAnswer, kind_of};
ghost use Rattle.hlr.specs.Records.{command_named};
ghost use Rattle.hlr.specs.Written.{HasRoom};
ghost use Rattle.hlr.specs.declared.records.Kind.TheVariants as kind;
ghost use Rattle.hlr.specs.declared.records.Word.TheVariants as word;

use crate::events::{event_of, read_post};
use crate::lines::{Line, build_refused, build_reply};
use crate::records::Word;
use csv::ByteRecord;
use hlr_core::Register;

/// Appends the reply to a record whose word is `post`: `post,part,limit`.
#[inline(never)]
pub fn build_post(row: &ByteRecord, register: &mut Register, line: &mut Line)
    requires home { AllHome register.old.owners }
    requires room { HasRoom line.old.items }
    ensures text { AddsAnswer (fields_of row.now) (command_named (Some word.Post) (fields_of row.now)) (store_in register.old) (store_in register.new) line.old.items line.new.items }
    ensures home { AllHome register.new.owners }
{
    match read_post(row) {
        Ok((part, limit)) => build_reply(line, &register.post(part, limit)),
        Err(why) => build_refused(line, why),
    }
}

/// Appends the reply to a record that moves regions, or that divides or dissolves a part, which is the register's reply
/// to its event.
#[inline(never)]
pub fn build_moved(word: Word, row: &ByteRecord, register: &mut Register, line: &mut Line)
    requires event { kind_of word ≡ kind.Event }
    requires home { AllHome register.old.owners }
    requires room { HasRoom line.old.items }
    ensures text { AddsAnswer (fields_of row.now) (command_named (Some word) (fields_of row.now)) (store_in register.old) (store_in register.new) line.old.items line.new.items }
    ensures home { AllHome register.new.owners }
{
    match event_of(word, row) {
        Ok(event) => build_reply(line, &register.apply(event)),
        Err(why) => build_refused(line, why),
    }
}
