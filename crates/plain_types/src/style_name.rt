//! Names of predefined counter styles.

ghost use Rattle.std.specs.Prelude.{◌≡◌, ℕ, List, map, option_copied};
ghost use Rattle.std.specs.Borrow.{Bor};
ghost use Rattle.std.specs.List.{find};
ghost use Rattle.std.specs.Str.{chars, str_eq_ignore_ascii_case};
ghost use Rattle.plain_types.specs.StyleNames.{style_name};

/// The names of the predefined styles (CSS Counter Styles 3, 6).
static PREDEFINED: [&str; 36] = [
    "decimal",
    "decimal-leading-zero",
    "arabic-indic",
    "armenian",
    "upper-armenian",
    "lower-armenian",
    "bengali",
    "cambodian",
    "khmer",
    "cjk-decimal",
    "devanagari",
    "gujarati",
    "gurmukhi",
    "kannada",
    "lao",
    "malayalam",
    "mongolian",
    "myanmar",
    "oriya",
    "persian",
    "lower-roman",
    "upper-roman",
    "tamil",
    "telugu",
    "thai",
    "tibetan",
    "lower-alpha",
    "lower-latin",
    "upper-alpha",
    "upper-latin",
    "lower-greek",
    "disc",
    "circle",
    "square",
    "disclosure-open",
    "disclosure-closed",
];

/// The name under which a counter style is kept: that of a predefined style in lower case, any other
/// as it is (CSS Counter Styles 3, 3). It takes no memory, and time linear in the name.
pub fn style_name(name: &str) -> &str
    ensures name { chars result.now ≡ style_name (chars name.now) }
{
    first_equal(&PREDEFINED, name).unwrap_or(name)
}

/// The first of these names that equals the given one but for ASCII case. It takes no memory.
pub fn first_equal<'a>(names: &[&'a str], name: &str) -> Option<&'a str>
    ensures first { option_copied result ≡ find (str_eq_ignore_ascii_case name.now) (map (λ (known : Bor (List ℕ)). known.now) names.now) }
{
    for known in names {
        if name.eq_ignore_ascii_case(known) {
            return Some(known);
        }
    }
    None
}
