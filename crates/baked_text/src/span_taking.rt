//! Elements that take no `span`.

ghost use Rattle.std.specs.Prelude.{◌≡◌, List, ℕ};
ghost use Rattle.std.specs.Borrow.{Bor};
ghost use Rattle.std.specs.List.{list_any};
ghost use Rattle.std.specs.Str.{bytes_eq, chars};
ghost use Rattle.bake_definitions.specs.Insertions.{takes_span};

/// The names of elements in which no `span` may stand first, or none last (HTML, 13.1.2 and the content models of 4).
static NAMES_WITHOUT_SPAN: [&str; 40] = [
    "area", "base", "br", "col", "embed", "hr", "img", "input", "link", "meta", "source", "track",
    "wbr", "html", "head", "title", "style", "script", "iframe", "textarea", "option", "ul", "ol",
    "menu", "dl", "table", "thead", "tbody", "tfoot", "tr", "colgroup", "select", "optgroup",
    "picture", "hgroup", "svg", "math", "details", "fieldset", "ruby",
];

fn is_among(names: &[&str], name: &str) -> bool
    ensures { result ≡ list_any (λ (other : Bor (List ℕ)). bytes_eq name.now other.now) names.now }
{
    names.iter().any(|other| name == *other)
}

/// Whether a `span` may be put into an element of this name. Names are compared as written. Constant time.
pub fn takes_span(name: &str) -> bool
    ensures { result ≡ takes_span (chars name.now) }
{
    !is_among(&NAMES_WITHOUT_SPAN, name)
}
