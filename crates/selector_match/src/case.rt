//! Whether ASCII case counts (Selectors 4, 6.3).

ghost use Rattle.std.specs.Prelude.{◌≡◌};
ghost use Rattle.selector_match.specs.Machinery.Sides.{is_aside};

/// Whether ASCII case counts, or is put aside.
#[derive(Clone, Copy)]
pub(crate) enum Case {
    Counts,
    Aside,
}

/// The flag `i` puts case aside.
pub(crate) fn flagged(fold: bool) -> Case
    ensures { is_aside result ≡ fold }
{
    if fold { Case::Aside } else { Case::Counts }
}

pub(crate) fn is_aside(case: Case) -> bool
    ensures { result ≡ is_aside case }
{
    match case {
        Case::Counts => false,
        Case::Aside => true,
    }
}
