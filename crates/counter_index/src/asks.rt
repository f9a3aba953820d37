//! What asks for starts.

ghost use Rattle.std.specs.Prelude.{◌≡◌, Bool, option_copied};
ghost use Rattle.counter_index.specs.Machinery.Asking.{is_asking};

use crate::deeds::CounterDeeds;
use box_eval::inputs::Start;
use plain_types::list::List;

/// Something that is kept of an element, and tells whether the element asks for starts.
pub(crate) trait Asks {
    /// It does.
    ghost asks: { Self → Bool };

    /// Whether it does.
    fn asks(&self) -> bool
        ensures test { result ≡ asks self.now };
}

impl Asks for CounterDeeds {
    ghost use Rattle.box_eval.specs.Starts.{has_starts};

    ghost asks = { λ deeds. has_starts deeds.asked };

    fn asks(&self) -> bool {
        self.asked.asks()
    }
}

impl Asks for List<Start> {
    ghost use Rattle.box_eval.specs.Starts.{has_starts};

    ghost asks = { has_starts };

    fn asks(&self) -> bool {
        !self.is_empty()
    }
}

/// Whether what is kept of an element tells so; where nothing is kept, it does not.
pub(crate) fn is_asking<T: Asks>(kept: Option<&T>) -> bool
    ensures test { result ≡ is_asking T.asks (option_copied kept.entry) }
{
    match kept {
        Some(its) => its.asks(),
        None => false,
    }
}
