//! The parts of a row's key.
ghost use Rattle.std.specs.Prelude.{◌≡◌, None, Some, IsTrue, if◌then◌else◌};
ghost use Rattle.tatp_rows.specs.Rows.{is_between};
ghost use Rattle.tatp_rows.specs.declared.ranges.TheConstants.{LAST_SUBSCRIBER};
ghost use Rattle.group_tree.specs.Tables.{s_id_in, start_time_in, type_in};

use tatp_rows::{LAST_SUBSCRIBER, in_range};

/// Returns the subscriber of a key, 1..=16,777,216.
pub(crate) fn s_id_in(key: u64) -> u32
    requires { IsTrue (is_between 1 LAST_SUBSCRIBER (s_id_in key)) }
    ensures { result ≡ s_id_in key }
{
    (key / 65_536) as u32
}

/// Returns the subscriber of a key, 1..=16,777,216, or `None` if it is out of that range.
pub(crate) fn checked_s_id_in(key: u64) -> Option<u32>
    ensures { result ≡ if is_between 1 LAST_SUBSCRIBER (s_id_in key) then Some (s_id_in key) else None }
{
    in_range(key / 65_536, LAST_SUBSCRIBER).ok()
}

/// Returns the type of a key, 0..=255, which is that of an access or of a facility.
pub(crate) fn type_in(key: u64) -> u8
    ensures { result ≡ type_in key }
{
    (key / 256 % 256) as u8
}

/// Returns the start time of a key in hours, 0..=255, or 0 for a row without one.
pub(crate) fn start_time_in(key: u64) -> u8
    ensures { result ≡ start_time_in key }
{
    (key % 256) as u8
}
