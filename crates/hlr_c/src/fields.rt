//! The checks of the fields of keys.
ghost use Rattle.std.specs.Prelude.{◌≡◌};
ghost use Rattle.tatp_rows.specs.Rows.{is_between};
ghost use Rattle.tatp_rows.specs.declared.ranges.TheConstants.{LAST_SUBSCRIBER};
ghost use Rattle.tatp_actions.specs.Action.{is_in_range, is_typed};
ghost use Rattle.tatp_actions.specs.declared.action.Action.TheVariants as action;

use tatp_rows::{LAST_SUBSCRIBER, is_start_time};

/// Returns whether a number lies in `low`..=`high`.
pub(crate) fn is_between(value: u64, low: u64, high: u64) -> bool
    ensures { result ≡ is_between low high value }
{
    low <= value && value <= high
}

/// Returns whether a number is an s_id.
pub(crate) fn is_subscriber(s_id: u64) -> bool
    ensures { result ≡ is_between 1 LAST_SUBSCRIBER s_id }
{
    is_between(s_id, 1, u64::from(LAST_SUBSCRIBER))
}

/// Returns whether the s_id and the type of an access or a facility are in range.
pub(crate) fn is_typed(s_id: u64, kind: u64) -> bool
    ensures { result ≡ is_typed s_id kind }
{
    is_subscriber(s_id) && is_between(kind, 1, 4)
}

/// Returns whether the fields of a GET_NEW_DESTINATION are in range.
pub(crate) fn is_call(s_id: u64, sf_type: u64, start_time: u64, end_time: u64) -> bool
    ensures { result ≡ is_in_range (action.NewDestination s_id sf_type start_time end_time) }
{
    is_typed(s_id, sf_type) && is_start_time(start_time) && is_between(end_time, 1, 24)
}
