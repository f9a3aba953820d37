//! The numbers of counters.

ghost use Rattle.std.specs.Prelude.{◌≡◌};
ghost use Rattle.plain_types.specs.Counts.{count_sum, count_negation};

/// A counter's value, and every integer that a sheet or a document gives to counters and their styles.
pub type Count = i64;

/// The least count. Counts saturate here (our own; CSS Lists 3, 4 lets a program choose its limits).
pub const COUNT_LOW: Count = i64::MIN;

/// The greatest count.
pub const COUNT_HIGH: Count = i64::MAX;

/// The sum of two counts, saturated at [`COUNT_LOW`] and [`COUNT_HIGH`].
pub fn add_counts(a: Count, b: Count) -> Count
    ensures sum { result ≡ count_sum a b }
{
    a.saturating_add(b)
}

/// The count of the other sign, saturated at [`COUNT_HIGH`].
pub fn negate_count(a: Count) -> Count
    ensures negation { result ≡ count_negation a }
{
    a.saturating_neg()
}
