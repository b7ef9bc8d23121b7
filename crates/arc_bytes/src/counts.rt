//! Counts, which stand still at their end.
ghost use Rattle.std.specs.Prelude.{◌≡◌};
ghost use Rattle.arc_bytes.specs.Counts.{next_count};

/// The number after this one of a count.
pub(crate) fn next_count(count: u64) -> u64
    ensures { result ≡ next_count count }
{
    count.saturating_add(1)
}
