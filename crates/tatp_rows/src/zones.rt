//! The two divisions by which rows are counted: the areas of locations, and the zones of subscribers.
ghost use Rattle.std.specs.Prelude.{◌≡◌};
ghost use Rattle.tatp_rows.specs.Zones.{zone_of, area_of};

/// Finds the zone of a subscriber, 0..=31. Zones are `width` subscribers wide, and the last one has all that are left.
/// An s_id of 0 counts as 1, and a width of 0 gives zone 0.
pub fn zone(s_id: u32, width: u32) -> u8
    ensures { result ≡ zone_of width s_id }
{
    if width == 0 {
        return 0;
    }
    (s_id.saturating_sub(1) / width).min(31) as u8
}

/// Finds the area of a location, 0..=15, which is its four highest bits.
pub fn area(vlr_location: u32) -> u8
    ensures { result ≡ area_of vlr_location }
{
    (vlr_location / 268_435_456) as u8
}
