//! Laws of what is kept of elements. The functions do nothing: each contract is a law.

ghost use Rattle.zero_walks.specs.Laws.{KeepsWhatIsTold};

/// Where what is kept is that of what is told of elements, and elements go and others come or are told otherwise, it is that of
/// what is told then.
pub fn what_is_told_is_kept()
    ensures kept { KeepsWhatIsTold }
{}
