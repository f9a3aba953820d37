//! The predefined counter styles, at the ends of their ranges and just past them, with the values of CSS Counter
//! Styles 3, 6.

use crate::rows::{code_of, tabled};
use crate::tests::comes_out;
use plain_types::memory::Memory;
use ports::fixed_sink::FixedSink;
use std::marker::Brand;
use std::sync::ledger::Blank;
use std::test::Fail;

/// A style, a number, and its text.
type Value = (&'static str, &'static str, &'static str);

/// Ranges without an end, so that the ends are those of counts.
static NUMERIC: [Value; 15] = [
    ("decimal", "-9223372036854775808", "-9223372036854775808"),
    ("decimal", "9223372036854775807", "9223372036854775807"),
    ("decimal", "-2147483648", "-2147483648"),
    ("decimal", "-1", "-1"),
    ("decimal", "0", "0"),
    ("decimal", "2147483647", "2147483647"),
    ("decimal-leading-zero", "-10", "-10"),
    ("decimal-leading-zero", "-9", "-9"),
    ("decimal-leading-zero", "0", "00"),
    ("decimal-leading-zero", "9", "09"),
    ("decimal-leading-zero", "10", "10"),
    ("cjk-decimal", "-1", "-1"),
    ("cjk-decimal", "0", "〇"),
    ("cjk-decimal", "105", "一〇五"),
    ("cjk-decimal", "1236478900", "一二三六四七八九〇〇"),
];

/// Ten digits each.
static DIGITS: [Value; 18] = [
    ("arabic-indic", "1234567890", "١٢٣٤٥٦٧٨٩٠"),
    ("persian", "1234567890", "۱۲۳۴۵۶۷۸۹۰"),
    ("devanagari", "1234567890", "१२३४५६७८९०"),
    ("bengali", "1234567890", "১২৩৪৫৬৭৮৯০"),
    ("gurmukhi", "1234567890", "੧੨੩੪੫੬੭੮੯੦"),
    ("gujarati", "1234567890", "૧૨૩૪૫૬૭૮૯૦"),
    ("oriya", "1234567890", "୧୨୩୪୫୬୭୮୯୦"),
    ("tamil", "1234567890", "௧௨௩௪௫௬௭௮௯௦"),
    ("telugu", "1234567890", "౧౨౩౪౫౬౭౮౯౦"),
    ("kannada", "1234567890", "೧೨೩೪೫೬೭೮೯೦"),
    ("malayalam", "1234567890", "൧൨൩൪൫൬൭൮൯൦"),
    ("thai", "1234567890", "๑๒๓๔๕๖๗๘๙๐"),
    ("lao", "1234567890", "໑໒໓໔໕໖໗໘໙໐"),
    ("tibetan", "1234567890", "༡༢༣༤༥༦༧༨༩༠"),
    ("myanmar", "1234567890", "၁၂၃၄၅၆၇၈၉၀"),
    ("khmer", "1234567890", "១២៣៤៥៦៧៨៩០"),
    ("cambodian", "1234567890", "១២៣៤៥៦៧៨៩០"),
    ("mongolian", "1234567890", "᠑᠒᠓᠔᠕᠖᠗᠘᠙᠐"),
];

/// From 1 to 3999.
static ROMAN: [Value; 9] = [
    ("lower-roman", "0", "0"),
    ("lower-roman", "1", "i"),
    ("lower-roman", "3999", "mmmcmxcix"),
    ("lower-roman", "4000", "4000"),
    ("upper-roman", "0", "0"),
    ("upper-roman", "1", "I"),
    ("upper-roman", "1944", "MCMXLIV"),
    ("upper-roman", "3999", "MMMCMXCIX"),
    ("upper-roman", "4000", "4000"),
];

/// From 1 to 9999.
static ARMENIAN: [Value; 12] = [
    ("armenian", "0", "0"),
    ("armenian", "1", "Ա"),
    ("armenian", "9999", "ՔՋՂԹ"),
    ("armenian", "10000", "10000"),
    ("upper-armenian", "0", "0"),
    ("upper-armenian", "1", "Ա"),
    ("upper-armenian", "9999", "ՔՋՂԹ"),
    ("upper-armenian", "10000", "10000"),
    ("lower-armenian", "0", "0"),
    ("lower-armenian", "1", "ա"),
    ("lower-armenian", "9999", "քջղթ"),
    ("lower-armenian", "10000", "10000"),
];

/// From 1 on, and where a letter more is needed; names count in any case.
static LATIN: [Value; 16] = [
    ("Lower-Alpha", "0", "0"),
    ("Lower-Alpha", "1", "a"),
    ("Lower-Alpha", "26", "z"),
    ("Lower-Alpha", "27", "aa"),
    ("lower-latin", "0", "0"),
    ("lower-latin", "1", "a"),
    ("lower-latin", "702", "zz"),
    ("lower-latin", "703", "aaa"),
    ("upper-alpha", "0", "0"),
    ("upper-alpha", "1", "A"),
    ("upper-alpha", "26", "Z"),
    ("upper-alpha", "27", "AA"),
    ("UPPER-LATIN", "-1", "-1"),
    ("UPPER-LATIN", "0", "0"),
    ("UPPER-LATIN", "1", "A"),
    ("UPPER-LATIN", "28", "AB"),
];

/// From 1 on, without the final sigma.
static GREEK: [Value; 6] = [
    ("lower-greek", "0", "0"),
    ("lower-greek", "1", "α"),
    ("lower-greek", "17", "ρ"),
    ("lower-greek", "18", "σ"),
    ("lower-greek", "24", "ω"),
    ("lower-greek", "25", "αα"),
];

/// A sign for every number.
static SIGNS: [Value; 7] = [
    ("disc", "-9223372036854775808", "•"),
    ("disc", "0", "•"),
    ("disc", "9223372036854775807", "•"),
    ("circle", "1", "◦"),
    ("square", "1", "▪"),
    ("disclosure-open", "1", "▾"),
    ("disclosure-closed", "1", "▸"),
];

/// The place of the first row that does not come out; none where all do.
fn first_wrong(rt: &HostRuntime, table: &[Value]) -> Result<Option<usize>, Memory> {
    for (place, (style, number, text)) in table.iter().enumerate() {
        let words = ["table", "s.css", *style, *number, *number];
        let line = format!(in rt.alloc(); "{number} \"{text}\"\n")?;
        if !comes_out(rt, &tabled("", &words, line.as_str()))? {
            return Ok(Some(place));
        }
    }
    Ok(None)
}

#[test]
fn numeric_styles(rt: HostRuntime) -> Result<(), Fail> {
    assert_eq!(rt; first_wrong(&rt, &NUMERIC)?, None);
    assert_eq!(rt; first_wrong(&rt, &DIGITS)?, None);
    Ok(())
}

#[test]
fn additive_styles(rt: HostRuntime) -> Result<(), Fail> {
    assert_eq!(rt; first_wrong(&rt, &ROMAN)?, None);
    assert_eq!(rt; first_wrong(&rt, &ARMENIAN)?, None);
    Ok(())
}

#[test]
fn alphabetic_styles(rt: HostRuntime) -> Result<(), Fail> {
    assert_eq!(rt; first_wrong(&rt, &LATIN)?, None);
    assert_eq!(rt; first_wrong(&rt, &GREEK)?, None);
    Ok(())
}

#[test]
fn cyclic_styles(rt: HostRuntime) -> Result<(), Fail> {
    assert_eq!(rt; first_wrong(&rt, &SIGNS)?, None);
    Ok(())
}

/// Ten thousand rows, and no more.
#[test]
fn many_values(rt: HostRuntime) -> Result<(), Fail> {
    let mut out = FixedSink::new(rt.alloc(), 200000)?;
    let mut err = FixedSink::new(rt.alloc(), 1000)?;
    let row = tabled("", &["table", "s.css", "decimal", "0", "9999"], "");
    let code = code_of::<_, Brand>(&rt, Blank::new(1), &row, &mut out, &mut err)?;
    assert_eq!(rt; code, 0);
    let lines = out.bytes().iter().filter(|byte| **byte == b'\n').count();
    assert_eq!(rt; lines, 10000);
    assert!(rt; out.bytes().ends_with(b"\n9999 \"9999\"\n"));
    Ok(())
}
