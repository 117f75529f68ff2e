//! The keys of the rows. A subscriber's rows have consecutive keys, and subscribers follow in the order of their s_id.
ghost use Rattle.std.specs.Prelude.{◌≡◌};
ghost use Rattle.tatp_rows.specs.Keys.{key_of};

/// Returns the key of the row with this s_id, type and start time, where a field that a table lacks is 0.
pub fn row_key(s_id: u32, kind: u8, start_time: u8) -> u64
    ensures { result ≡ key_of s_id kind start_time }
{
    u64::from(s_id) * 65_536 + u64::from(kind) * 256 + u64::from(start_time)
}

/// Returns the key of the Subscriber row with this s_id.
pub fn subscriber_key(s_id: u32) -> u64
    ensures { result ≡ key_of s_id 0 0 }
{
    row_key(s_id, 0, 0)
}
