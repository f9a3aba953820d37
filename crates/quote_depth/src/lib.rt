//! Quotation marks by depth (CSS Generated Content 3, 3).
//!
//! The quote depth runs through the boxes of a document in tree order. [`step`] takes one quote keyword of
//! `content`: it says which mark is written, if one is, and the depth behind it. The depth ends at 0 and at
//! the greatest `u64`.
//!
//! The layer above knows this crate by `mark` and `depth_after` of `specs/Marks.antt`.
//!
//! ```text
//! step(&Quotes::Auto, 0, QuoteKind::Open)     // “, and the depth 1
//! step(&Quotes::Auto, 1, QuoteKind::Open)     // ‘, and the depth 2
//! step(&Quotes::Auto, 0, QuoteKind::Close)    // no mark, and the depth 0
//! ```
#![tactic(auto)]

ghost use Rattle.std.specs.Prelude.{◌≡◌, ℕ, List, option_copied};
ghost use Rattle.std.specs.Borrow.{Bor};
ghost use Rattle.std.specs.Option.{option_map};
ghost use Rattle.std.specs.Str.{chars};
ghost use Rattle.plain_types.specs.declared.style.Pair.{Pair};
ghost use Rattle.quote_depth.specs.Marks.{depth_after, mark, pair_at};

use plain_types::content::QuoteKind;
use plain_types::style::Quotes;

/// The mark that the keyword writes at this depth, if it writes one, and the depth behind it. It takes no
/// memory, and constant time.
pub fn step<'a>(quotes: &'a Quotes, depth: u64, kind: QuoteKind) -> (Option<&'a str>, u64)
    ensures mark { option_map chars (option_copied result.0) ≡ mark quotes.now depth kind }
    ensures depth { result.1 ≡ depth_after depth kind }
{
    match kind {
        QuoteKind::Open => (left_mark(quotes, depth), depth.saturating_add(1)),
        QuoteKind::NoOpen => (None, depth.saturating_add(1)),
        QuoteKind::Close if depth > 0 => (right_mark(quotes, depth - 1), depth - 1),
        QuoteKind::Close | QuoteKind::NoClose => (None, depth.saturating_sub(1)),
    }
}

/// The left mark of the pair of a depth.
fn left_mark<'a>(quotes: &'a Quotes, depth: u64) -> Option<&'a str>
    ensures mark { option_map chars (option_copied result) ≡ option_map (λ (pair : Pair). pair.left) (pair_at quotes.now depth) }
{
    let (left, _) = marks_at(quotes, depth)?;
    Some(left)
}

/// The right mark of the pair of a depth.
fn right_mark<'a>(quotes: &'a Quotes, depth: u64) -> Option<&'a str>
    ensures mark { option_map chars (option_copied result) ≡ option_map (λ (pair : Pair). pair.right) (pair_at quotes.now depth) }
{
    let (_, right) = marks_at(quotes, depth)?;
    Some(right)
}

/// The pair of marks of a depth.
fn marks_at<'a>(quotes: &'a Quotes, depth: u64) -> Option<(&'a str, &'a str)>
    ensures left { option_map (λ (marks : Bor (List ℕ) × Bor (List ℕ)). chars marks.0.now) result ≡ option_map (λ (pair : Pair). pair.left) (pair_at quotes.now depth) }
    ensures right { option_map (λ (marks : Bor (List ℕ) × Bor (List ℕ)). chars marks.1.now) result ≡ option_map (λ (pair : Pair). pair.right) (pair_at quotes.now depth) }
{
    match quotes {
        Quotes::Nothing => None,
        Quotes::Auto if depth == 0 => Some(("“", "”")),
        Quotes::Auto => Some(("‘", "’")),
        Quotes::Pairs(pairs) => {
            let pairs = pairs.as_slice();
            let last = pairs.len().checked_sub(1)?;
            let pair = &pairs[last.min(depth as usize)];
            Some((pair.left.as_str(), pair.right.as_str()))
        }
    }
}

#[cfg(test)]
mod tests {
    use super::*;
    use plain_types::list::List;
    use std::test::Fail;

    /// The marks and depths of some keywords, one after the other from a depth on, are these.
    fn gives(quotes: &Quotes, depth: u64, rows: &[(QuoteKind, &str, u64)]) -> bool {
        let mut depth = depth;
        for (kind, mark, after) in rows {
            let (written, behind) = step(quotes, depth, *kind);
            if written.unwrap_or("none") != *mark || behind != *after {
                return false;
            }
            depth = behind;
        }
        true
    }

    // <p><q><q><q/></q></q><b/></p> with b::before{content:close-quote "!"}
    #[test]
    fn marks_go_by_depth(rt: HostRuntime) {
        let rows = [
            (QuoteKind::Open, "“", 1),
            (QuoteKind::Open, "‘", 2),
            (QuoteKind::Open, "‘", 3),
            (QuoteKind::Close, "’", 2),
            (QuoteKind::Close, "’", 1),
            (QuoteKind::Close, "”", 0),
            (QuoteKind::Close, "none", 0),
        ];
        assert!(rt; gives(&Quotes::Auto, 0, &rows));
    }

    #[test]
    fn depth_changes_without_marks(rt: HostRuntime) -> Result<(), Fail> {
        let rows = [
            (QuoteKind::NoOpen, "none", 1),
            (QuoteKind::Open, "‘", 2),
            (QuoteKind::NoClose, "none", 1),
            (QuoteKind::NoClose, "none", 0),
            (QuoteKind::NoClose, "none", 0),
        ];
        assert!(rt; gives(&Quotes::Auto, 0, &rows));
        let rows = [
            (QuoteKind::Open, "none", 1),
            (QuoteKind::Close, "none", 0),
            (QuoteKind::Close, "none", 0),
        ];
        assert!(rt; gives(&Quotes::Nothing, 0, &rows));
        assert!(rt; gives(&Quotes::Pairs(List::new(rt.alloc())), 0, &rows));
        Ok(())
    }

    #[test]
    fn depth_ends(rt: HostRuntime) {
        let rows = [
            (QuoteKind::Open, "‘", u64::MAX),
            (QuoteKind::NoOpen, "none", u64::MAX),
            (QuoteKind::Close, "’", u64::MAX - 1),
        ];
        assert!(rt; gives(&Quotes::Auto, u64::MAX, &rows));
    }
}
