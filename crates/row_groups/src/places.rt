//! The places of a group.
ghost use Rattle.std.specs.Prelude.{◌≡◌, is_some};
ghost use Rattle.std.specs.List.{count_by};

/// Counts the places that are taken.
pub(crate) fn count_taken<D>(places: &[Option<D>]) -> usize
    ensures { result ≡ count_by is_some places.now }
{
    places.iter().filter(|place| place.is_some()).count()
}
