//! The sources of the records of a run.
ghost use Rattle.std.specs.Prelude.{◌≡◌, ◌⊎◌, IfErr, IfOk, OnOk, option_map};
ghost use Rattle.csv.specs.Reading.{reader_state, source_of, strip_bom};
ghost use Rattle.csv.specs.Records.{fields_of};
ghost use Rattle.csv.specs.declared.parser.State.TheVariants as state;
ghost use Rattle.hlr.specs.Source.{FailsIn, ReadsOne, Seen, IsOpenReader, unread_by};
ghost use Rattle.hlr.specs.WholeRecords.{inner_remaining};
ghost use Rattle.hlr.specs.declared.fault.Fault.{Fault};
ghost use Rattle.hlr.specs.declared.fault.Fault.TheVariants as fault;

use crate::fault::{Fault, read_fault};
use crate::whole_records::WholeRecords;
use csv::{ByteRecord, Reader, ReaderBuilder};
use std::alloc::Global;
use std::io::{self, Read};
use std::snapshot::Snapshot;

/// A source, which has records in turn, until it ends or fails.
pub trait Source {
    // How the source is seen.
    ghost seen: { Seen Self };

    // Whether the source may be read.
    ghost is_open: { Self → Type 0 };

    /// Reads the next record into the row, and returns whether there was one. It returns `Memory` if memory was
    /// refused, and `Read` if the read failed for another reason.
    fn read(&mut self, row: &mut ByteRecord) -> Result<bool, Fault>
        requires { is_open self.old }
        ensures reads { IfOk result (λ found. ReadsOne (seen.unread self.old) (seen.unread self.new) found (fields_of row.new)) }
        ensures begun { seen.begun self.new ≡ seen.unread self.old }
        ensures open { OnOk result (is_open self.new) }
        ensures failed { IfErr result (λ why. seen.fails self.old self.new why) }
        ensures fault { IfErr result (λ why. (why ≡ fault.Memory) ⊎ (why ≡ fault.Read)) };

    /// Returns whether a whole record is there that was not read yet, so that the next read needn't wait.
    fn has_record(&self) -> bool;
}

/// The records of a reader, which are those of CSV without a header row, with any number of fields.
#[derive(Drop)]
pub struct Records<R> {
    csv: Reader<WholeRecords<R>>,
    // The reader as it was when the last read began. This takes no room.
    begun: Snapshot<Reader<WholeRecords<R>>>,
}

impl<R: Read + Drop> Records<R> {
    /// Makes a source of the records of a reader, of which none is read yet. It returns an error if there is no memory
    /// for a block.
    pub fn of(alloc: Global, reader: R) -> io::Result<Self>
        ensures open { IfOk result (λ records. IsOpenReader records.csv) }
        ensures start { IfOk result (λ records. reader_state records.csv ≡ state.StartRecord) }
        ensures source { IfOk result (λ records. source_of (inner_remaining R.remaining) records.csv ≡ option_map strip_bom (R.remaining reader)) }
    {
        let whole = WholeRecords::new(alloc, reader)?;
        let csv = ReaderBuilder::new()
            .has_headers(false)
            .flexible(true)
            .from_reader(alloc, whole);
        let begun = Snapshot::of(&csv);
        Ok(Records { csv, begun })
    }
}

impl<R: Read> Source for Records<R> {
    ghost seen = { record {
      unread = λ s. unread_by (inner_remaining R.remaining) s.csv;
      begun = λ s. unread_by (inner_remaining R.remaining) s.begun.value;
      fails = λ s t. FailsIn (inner_remaining R.remaining) s.csv t.csv;
    } };

    ghost is_open = { λ s. IsOpenReader s.csv };

    fn read(&mut self, row: &mut ByteRecord) -> Result<bool, Fault> {
        self.begun = Snapshot::of(&self.csv);
        match self.csv.read_byte_record(row) {
            Ok(found) => Ok(found),
            Err(error) => Err(read_fault(error)),
        }
    }

    fn has_record(&self) -> bool {
        self.csv
            .get_ref()
            .has_record_from(self.csv.position().byte())
    }
}
