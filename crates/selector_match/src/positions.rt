//! Positions among siblings (Selectors 4, 13.3 and 13.4).

ghost use Rattle.std.specs.Prelude.{◌≡◌, ◌↔◌, ℕ, ◌+◌, ◌*◌, IsTrue};
ghost use Rattle.selector_match.specs.Positions.{is_nth};

/// Whether so many steps, one after the other, make the gap, for some number of steps.
fn is_multiple(gap: u128, step: u32) -> bool
    ensures { IsTrue result ↔ ((n : ℕ) × (step * n ≡ gap)) }
{
    if step == 0 {
        gap == 0
    } else {
        gap % u128::from(step) == 0
    }
}

/// Whether `an+b` gives, for some n, the position after so many others. Constant time.
pub(crate) fn is_nth(a: i32, b: i32, before: usize) -> bool
    ensures { result ≡ is_nth a b (before + 1) }
{
    let position = before as u128 + 1;
    let offset = u128::from(b.unsigned_abs());
    let step = a.unsigned_abs();
    if b < 0 {
        return a >= 0 && is_multiple(position + offset, step);
    }
    if offset > position {
        return a < 0 && is_multiple(offset - position, step);
    }
    if a < 0 {
        position == offset
    } else {
        is_multiple(position - offset, step)
    }
}
