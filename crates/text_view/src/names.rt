//! Elements that begin a line and end it.

ghost use Rattle.std.specs.Prelude.{◌≡◌, List, ℕ};
ghost use Rattle.std.specs.Borrow.{Bor};
ghost use Rattle.std.specs.List.{list_any};
ghost use Rattle.std.specs.Str.{bytes_eq, chars};
ghost use Rattle.text_view.specs.Breaks.{is_breaking};

static BREAKING_NAMES: [&str; 32] = [
    "address",
    "article",
    "aside",
    "blockquote",
    "body",
    "br",
    "dd",
    "div",
    "dl",
    "dt",
    "figcaption",
    "figure",
    "footer",
    "h1",
    "h2",
    "h3",
    "h4",
    "h5",
    "h6",
    "header",
    "hr",
    "html",
    "li",
    "main",
    "nav",
    "ol",
    "p",
    "pre",
    "section",
    "table",
    "tr",
    "ul",
];

fn is_among(names: &[&str], name: &str) -> bool
    ensures { result ≡ list_any (λ (other : Bor (List ℕ)). bytes_eq name.now other.now) names.now }
{
    names.iter().any(|other| name == *other)
}

/// Whether an element of this name begins a line and ends it. Names are compared as written. Constant time.
pub(crate) fn is_breaking(name: &str) -> bool
    ensures { result ≡ is_breaking (chars name.now) }
{
    is_among(&BREAKING_NAMES, name)
}
