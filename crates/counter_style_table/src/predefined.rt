//! The predefined counter styles, as rules (CSS Counter Styles 3, 6).

ghost use Rattle.std.specs.Prelude.{◌≡◌, ◌∷◌, [], IfOk, Some, None, codes, map, pos};
ghost use Rattle.std.specs.Str.{chars};
ghost use Rattle.plain_types.specs.Table.{decimal_style};
ghost use Rattle.css_definitions.specs.PredefinedStyles.{predefined, symbols_of};
ghost use Rattle.counter_style_table.specs.Predefined.{descriptors_of, rule_of, tuple_of};

use crate::describe::initial_style;
use plain_types::count::Count;
use plain_types::counter_style::{Bounds, CounterStyle, Descriptor, StyleDef, Weight};
use plain_types::list::List;
use plain_types::memory::Memory;
use plain_types::style_ref::System;
use plain_types::text::Text;
use std::alloc::Global;

/// A predefined style.
#[derive(Clone, Copy)]
pub struct Predefined {
    pub name: &'static str,
    pub kind: Kind,
}

/// What a predefined style is.
#[derive(Clone, Copy)]
pub enum Kind {
    /// Positional, with these digits.
    Numeric(&'static str),
    /// `decimal` with two digits at least.
    LeadingZero,
    /// Positional from 0 on, with these digits and this suffix.
    CjkDecimal(&'static str, &'static str),
    /// Bijective, with these letters.
    Alphabetic(&'static str),
    /// Additive from 1 to this number, with these weights and symbols.
    Additive(Count, &'static [(Count, &'static str)]),
    /// This one sign.
    Sign(&'static str),
}

/// The tuples of `lower-roman`.
const LOWER_ROMAN: [(Count, &str); 13] = [
    (1000, "m"),
    (900, "cm"),
    (500, "d"),
    (400, "cd"),
    (100, "c"),
    (90, "xc"),
    (50, "l"),
    (40, "xl"),
    (10, "x"),
    (9, "ix"),
    (5, "v"),
    (4, "iv"),
    (1, "i"),
];

/// The tuples of `upper-roman`.
const UPPER_ROMAN: [(Count, &str); 13] = [
    (1000, "M"),
    (900, "CM"),
    (500, "D"),
    (400, "CD"),
    (100, "C"),
    (90, "XC"),
    (50, "L"),
    (40, "XL"),
    (10, "X"),
    (9, "IX"),
    (5, "V"),
    (4, "IV"),
    (1, "I"),
];

/// The tuples of `armenian` and `upper-armenian`.
const UPPER_ARMENIAN: [(Count, &str); 36] = [
    (9000, "Ք"),
    (8000, "Փ"),
    (7000, "Ւ"),
    (6000, "Ց"),
    (5000, "Ր"),
    (4000, "Տ"),
    (3000, "Վ"),
    (2000, "Ս"),
    (1000, "Ռ"),
    (900, "Ջ"),
    (800, "Պ"),
    (700, "Չ"),
    (600, "Ո"),
    (500, "Շ"),
    (400, "Ն"),
    (300, "Յ"),
    (200, "Մ"),
    (100, "Ճ"),
    (90, "Ղ"),
    (80, "Ձ"),
    (70, "Հ"),
    (60, "Կ"),
    (50, "Ծ"),
    (40, "Խ"),
    (30, "Լ"),
    (20, "Ի"),
    (10, "Ժ"),
    (9, "Թ"),
    (8, "Ը"),
    (7, "Է"),
    (6, "Զ"),
    (5, "Ե"),
    (4, "Դ"),
    (3, "Գ"),
    (2, "Բ"),
    (1, "Ա"),
];

/// The tuples of `lower-armenian`.
const LOWER_ARMENIAN: [(Count, &str); 36] = [
    (9000, "ք"),
    (8000, "փ"),
    (7000, "ւ"),
    (6000, "ց"),
    (5000, "ր"),
    (4000, "տ"),
    (3000, "վ"),
    (2000, "ս"),
    (1000, "ռ"),
    (900, "ջ"),
    (800, "պ"),
    (700, "չ"),
    (600, "ո"),
    (500, "շ"),
    (400, "ն"),
    (300, "յ"),
    (200, "մ"),
    (100, "ճ"),
    (90, "ղ"),
    (80, "ձ"),
    (70, "հ"),
    (60, "կ"),
    (50, "ծ"),
    (40, "խ"),
    (30, "լ"),
    (20, "ի"),
    (10, "ժ"),
    (9, "թ"),
    (8, "ը"),
    (7, "է"),
    (6, "զ"),
    (5, "ե"),
    (4, "դ"),
    (3, "գ"),
    (2, "բ"),
    (1, "ա"),
];

/// The predefined styles.
static PREDEFINED: [Predefined; 36] = [
    Predefined {
        name: "decimal",
        kind: Kind::Numeric("0123456789"),
    },
    Predefined {
        name: "decimal-leading-zero",
        kind: Kind::LeadingZero,
    },
    Predefined {
        name: "arabic-indic",
        kind: Kind::Numeric("٠١٢٣٤٥٦٧٨٩"),
    },
    Predefined {
        name: "armenian",
        kind: Kind::Additive(9999, &UPPER_ARMENIAN),
    },
    Predefined {
        name: "upper-armenian",
        kind: Kind::Additive(9999, &UPPER_ARMENIAN),
    },
    Predefined {
        name: "lower-armenian",
        kind: Kind::Additive(9999, &LOWER_ARMENIAN),
    },
    Predefined {
        name: "bengali",
        kind: Kind::Numeric("০১২৩৪৫৬৭৮৯"),
    },
    Predefined {
        name: "cambodian",
        kind: Kind::Numeric("០១២៣៤៥៦៧៨៩"),
    },
    Predefined {
        name: "khmer",
        kind: Kind::Numeric("០១២៣៤៥៦៧៨៩"),
    },
    Predefined {
        name: "cjk-decimal",
        kind: Kind::CjkDecimal("〇一二三四五六七八九", "、"),
    },
    Predefined {
        name: "devanagari",
        kind: Kind::Numeric("०१२३४५६७८९"),
    },
    Predefined {
        name: "gujarati",
        kind: Kind::Numeric("૦૧૨૩૪૫૬૭૮૯"),
    },
    Predefined {
        name: "gurmukhi",
        kind: Kind::Numeric("੦੧੨੩੪੫੬੭੮੯"),
    },
    Predefined {
        name: "kannada",
        kind: Kind::Numeric("೦೧೨೩೪೫೬೭೮೯"),
    },
    Predefined {
        name: "lao",
        kind: Kind::Numeric("໐໑໒໓໔໕໖໗໘໙"),
    },
    Predefined {
        name: "malayalam",
        kind: Kind::Numeric("൦൧൨൩൪൫൬൭൮൯"),
    },
    Predefined {
        name: "mongolian",
        kind: Kind::Numeric("᠐᠑᠒᠓᠔᠕᠖᠗᠘᠙"),
    },
    Predefined {
        name: "myanmar",
        kind: Kind::Numeric("၀၁၂၃၄၅၆၇၈၉"),
    },
    Predefined {
        name: "oriya",
        kind: Kind::Numeric("୦୧୨୩୪୫୬୭୮୯"),
    },
    Predefined {
        name: "persian",
        kind: Kind::Numeric("۰۱۲۳۴۵۶۷۸۹"),
    },
    Predefined {
        name: "lower-roman",
        kind: Kind::Additive(3999, &LOWER_ROMAN),
    },
    Predefined {
        name: "upper-roman",
        kind: Kind::Additive(3999, &UPPER_ROMAN),
    },
    Predefined {
        name: "tamil",
        kind: Kind::Numeric("௦௧௨௩௪௫௬௭௮௯"),
    },
    Predefined {
        name: "telugu",
        kind: Kind::Numeric("౦౧౨౩౪౫౬౭౮౯"),
    },
    Predefined {
        name: "thai",
        kind: Kind::Numeric("๐๑๒๓๔๕๖๗๘๙"),
    },
    Predefined {
        name: "tibetan",
        kind: Kind::Numeric("༠༡༢༣༤༥༦༧༨༩"),
    },
    Predefined {
        name: "lower-alpha",
        kind: Kind::Alphabetic("abcdefghijklmnopqrstuvwxyz"),
    },
    Predefined {
        name: "lower-latin",
        kind: Kind::Alphabetic("abcdefghijklmnopqrstuvwxyz"),
    },
    Predefined {
        name: "upper-alpha",
        kind: Kind::Alphabetic("ABCDEFGHIJKLMNOPQRSTUVWXYZ"),
    },
    Predefined {
        name: "upper-latin",
        kind: Kind::Alphabetic("ABCDEFGHIJKLMNOPQRSTUVWXYZ"),
    },
    Predefined {
        name: "lower-greek",
        kind: Kind::Alphabetic("αβγδεζηθικλμνξοπρστυφχψω"),
    },
    Predefined {
        name: "disc",
        kind: Kind::Sign("•"),
    },
    Predefined {
        name: "circle",
        kind: Kind::Sign("◦"),
    },
    Predefined {
        name: "square",
        kind: Kind::Sign("▪"),
    },
    Predefined {
        name: "disclosure-open",
        kind: Kind::Sign("▾"),
    },
    Predefined {
        name: "disclosure-closed",
        kind: Kind::Sign("▸"),
    },
];

/// The rules of the predefined styles.
pub fn predefined_rules(alloc: Global) -> Result<List<StyleDef>, Memory>
    ensures rules { IfOk result (λ rules. rules ≡ predefined) }
{
    rules_of(alloc, &PREDEFINED)
}

/// The style `decimal`.
pub fn decimal(alloc: Global) -> Result<CounterStyle, Memory>
    ensures style { IfOk result (λ style. style ≡ decimal_style) }
{
    let mut style = initial_style(alloc, System::Numeric)?;
    style.name = Text::from_str(alloc, "decimal")?;
    style.symbols = symbols_of(alloc, "0123456789")?;
    Ok(style)
}

/// The rules of these styles.
fn rules_of(alloc: Global, styles: &[Predefined]) -> Result<List<StyleDef>, Memory>
    ensures rules { IfOk result (λ rules. rules ≡ map rule_of styles.now) }
{
    let mut rules = List::new(alloc);
    for style in styles {
        rules.push(StyleDef {
            name: Text::from_str(alloc, style.name)?,
            descriptors: descriptors_of(alloc, &style.kind)?,
        })?;
    }
    Ok(rules)
}

/// What the rule of a style says.
fn descriptors_of(alloc: Global, kind: &Kind) -> Result<List<Descriptor>, Memory>
    ensures descriptors { IfOk result (λ descriptors. descriptors ≡ descriptors_of kind.now) }
{
    match kind {
        Kind::Numeric(digits) => with_symbols(alloc, System::Numeric, digits),
        Kind::LeadingZero => leading_zero(alloc),
        Kind::CjkDecimal(digits, suffix) => cjk_decimal(alloc, digits, suffix),
        Kind::Alphabetic(letters) => with_symbols(alloc, System::Alphabetic, letters),
        Kind::Additive(high, tuples) => additive(alloc, *high, tuples),
        Kind::Sign(sign) => one_sign(alloc, sign),
    }
}

/// A system and its symbols.
fn with_symbols(alloc: Global, system: System, characters: &str) -> Result<List<Descriptor>, Memory>
    ensures descriptors { IfOk result (λ descriptors. descriptors ≡ Descriptor.System system ∷ Descriptor.Symbols (symbols_of (chars characters.now)) ∷ []) }
{
    let mut descriptors = List::new(alloc);
    descriptors.push(Descriptor::System(system))?;
    descriptors.push(Descriptor::Symbols(symbols_of(alloc, characters)?))?;
    Ok(descriptors)
}

/// `decimal` with two digits at least.
fn leading_zero(alloc: Global) -> Result<List<Descriptor>, Memory>
    ensures descriptors { IfOk result (λ descriptors. descriptors ≡ descriptors_of Kind.LeadingZero) }
{
    let mut descriptors = List::new(alloc);
    let decimal = Text::from_str(alloc, "decimal")?;
    descriptors.push(Descriptor::System(System::Extends(decimal)))?;
    let symbol = Text::from_str(alloc, "0")?;
    descriptors.push(Descriptor::Pad { width: 2, symbol })?;
    Ok(descriptors)
}

/// Digits from 0 on, and a suffix.
fn cjk_decimal(alloc: Global, digits: &str, suffix: &str) -> Result<List<Descriptor>, Memory>
    ensures descriptors { IfOk result (λ descriptors. descriptors ≡ Descriptor.System System.Numeric ∷ Descriptor.Range (record { low = Some (pos 0); high = None } ∷ []) ∷ Descriptor.Symbols (symbols_of (chars digits.now)) ∷ Descriptor.Suffix (chars suffix.now) ∷ []) }
{
    let mut descriptors = List::new(alloc);
    descriptors.push(Descriptor::System(System::Numeric))?;
    descriptors.push(Descriptor::Range(range(alloc, 0, None)?))?;
    descriptors.push(Descriptor::Symbols(symbols_of(alloc, digits)?))?;
    descriptors.push(Descriptor::Suffix(Text::from_str(alloc, suffix)?))?;
    Ok(descriptors)
}

/// Additive tuples from 1 on.
fn additive(
    alloc: Global,
    high: Count,
    tuples: &[(Count, &str)],
) -> Result<List<Descriptor>, Memory>
    ensures descriptors { IfOk result (λ descriptors. descriptors ≡ Descriptor.System System.Additive ∷ Descriptor.Range (record { low = Some (pos 1); high = Some high } ∷ []) ∷ Descriptor.Additive (map tuple_of tuples.now) ∷ []) }
{
    let mut descriptors = List::new(alloc);
    descriptors.push(Descriptor::System(System::Additive))?;
    descriptors.push(Descriptor::Range(range(alloc, 1, Some(high))?))?;
    descriptors.push(Descriptor::Additive(tuples_of(alloc, tuples)?))?;
    Ok(descriptors)
}

/// One sign, and a space after it.
fn one_sign(alloc: Global, sign: &str) -> Result<List<Descriptor>, Memory>
    ensures descriptors { IfOk result (λ descriptors. descriptors ≡ Descriptor.System System.Cyclic ∷ Descriptor.Symbols (symbols_of (chars sign.now)) ∷ Descriptor.Suffix (codes " ") ∷ []) }
{
    let mut descriptors = List::new(alloc);
    descriptors.push(Descriptor::System(System::Cyclic))?;
    descriptors.push(Descriptor::Symbols(symbols_of(alloc, sign)?))?;
    descriptors.push(Descriptor::Suffix(Text::from_str(alloc, " ")?))?;
    Ok(descriptors)
}

/// Each character of a text as a symbol.
fn symbols_of(alloc: Global, characters: &str) -> Result<List<Text>, Memory>
    ensures symbols { IfOk result (λ symbols. symbols ≡ symbols_of (chars characters.now)) }
{
    let mut symbols = List::new(alloc);
    for character in characters.chars() {
        let mut symbol = Text::new(alloc);
        symbol.push(character)?;
        symbols.push(symbol)?;
    }
    Ok(symbols)
}

/// The range between two bounds.
fn range(alloc: Global, low: Count, high: Option<Count>) -> Result<List<Bounds>, Memory>
    ensures range { IfOk result (λ range. range ≡ record { low = Some low; high = high } ∷ []) }
{
    let mut range = List::new(alloc);
    range.push(Bounds {
        low: Some(low),
        high,
    })?;
    Ok(range)
}

/// Each weight with its symbol.
fn tuples_of(alloc: Global, tuples: &[(Count, &str)]) -> Result<List<Weight>, Memory>
    ensures tuples { IfOk result (λ weights. weights ≡ map tuple_of tuples.now) }
{
    let mut weights = List::new(alloc);
    for (weight, symbol) in tuples {
        weights.push(Weight {
            weight: *weight,
            symbol: Text::from_str(alloc, symbol)?,
        })?;
    }
    Ok(weights)
}
