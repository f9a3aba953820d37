//! An article as a publisher has it, its sheets, and a script of its edits.

use plain_types::memory::Memory;
use std::alloc::Global;

pub static ARTICLE: &str = r##"<?xml version="1.0" encoding="UTF-8"?>
<!DOCTYPE html>
<html xmlns="http://www.w3.org/1999/xhtml"><head><title>Bees</title></head><body>
<section id="a"><h2>Hive</h2><p>See <a class="ref" href="#f2">the plan</a> and <q>the <q>old</q> way</q>.<a class="fn" href="#n1"/></p><figure id="f1"><figcaption>Frame</figcaption></figure></section>
<section id="b"><h2>Work</h2><ol><li>Smoke</li><li>Open<ol type="a"><li>lid</li><li>frames</li></ol></li></ol><ul><li>veil</li></ul><figure id="f2"><figcaption>Plan</figcaption></figure></section>
<aside><ol class="notes"><li id="n1">Langstroth</li></ol></aside>
</body></html>
"##;

/// The sheet of its house.
pub static HOUSE: &str = r#"@charset "utf-8";
/* house style */
@import url("base.css");
@counter-style note { system: cyclic; symbols: "*" "†" "‡"; suffix: " " }
body { counter-reset: sec fig; font-family: serif; margin: 0 auto }
section { counter-increment: sec }
h2 { color: #333; font-size: 1.4em }
h2::before { content: counter(sec, upper-roman) ". " }
figure { counter-increment: fig; margin: 1em }
figcaption::before { content: "Fig. " counter(fig) ": " }
a:hover, a:focus { text-decoration: underline }
a.ref::after { content: " (Fig. " target-counter(attr(href), fig) ", " target-text(attr(href)) ")" }
a.fn::after { content: target-counter(attr(href), list-item, note) }
ol.notes { list-style: note outside }
ol ol { list-style-type: lower-alpha }
ul li::marker { content: "- " }
q { quotes: "«" "»" "“" "”" }
p { color: red; content counter(x); }
.x::wild { content: "no" }
@media print { a { color: black } }
"#;

/// Another sheet, to which the script goes over.
pub static PLAIN: &str =
    r#"body{counter-reset:fig}figure{counter-increment:fig 10}figcaption::before{content:counter(fig,decimal-leading-zero)" "}a.fn::after{content:"["target-counter(attr(href),list-item)"]"}"#;

/// The lines of the script, each with what it writes.
pub static EDITS: [(&str, &str); 17] = [
    (
        "show",
        r#"show 1
/1/1/0 before "I. "
/1/1/1/1 after " (Fig. 2, Plan)"
/1/1/1/3 before "«"
/1/1/1/3/1 before "“"
/1/1/1/3/1 after "”"
/1/1/1/3 after "»"
/1/1/1/5 after "*"
/1/1/2/0 before "Fig. 1: "
/1/3/0 before "II. "
/1/3/1/0 marker "1. "
/1/3/1/1 marker "2. "
/1/3/1/1/1/0 marker "a. "
/1/3/1/1/1/1 marker "b. "
/1/3/2/0 marker "- "
/1/3/3/0 before "Fig. 2: "
/1/5/0/0 marker "* "
end
"#,
    ),
    (
        r#"insert /1 1 <section id="z"><h2>Intro</h2></section>"#,
        "",
    ),
    ("insert /1/4/1 0 <li>Gloves</li>", ""),
    ("remove /1/4/2", ""),
    ("move /1/4/2 /1/1 1", ""),
    ("set /1/2/1/5 href #n2", ""),
    (r#"insert /1/6/0 1 <li id="n2">Dadant</li>"#, ""),
    (
        "show",
        r#"show 8
/1/1/0 before "I. "
/1/1/1/0 before "Fig. 1: "
/1/2/0 before "II. "
/1/2/1/1 after " (Fig. 1, Plan)"
/1/2/1/3 before "«"
/1/2/1/3/1 before "“"
/1/2/1/3/1 after "”"
/1/2/1/3 after "»"
/1/2/1/5 after "†"
/1/2/2/0 before "Fig. 2: "
/1/4/0 before "III. "
/1/4/1/0 marker "1. "
/1/4/1/1 marker "2. "
/1/4/1/2 marker "3. "
/1/4/1/2/1/0 marker "a. "
/1/4/1/2/1/1 marker "b. "
/1/6/0/0 marker "* "
/1/6/0/1 marker "† "
end
"#,
    ),
    ("sheet plain.css", ""),
    ("unset /1/2/1/1 class", ""),
    ("remove /1/9", "refused 11 no-place\n"),
    ("set /1/4/1 reversed reversed", ""),
    (
        "show",
        r#"show 13
/1/1/1/0 before "10 "
/1/2/1/3 before "“"
/1/2/1/3/1 before "‘"
/1/2/1/3/1 after "’"
/1/2/1/3 after "”"
/1/2/1/5 after "[2]"
/1/2/2/0 before "20 "
/1/4/1/0 marker "3. "
/1/4/1/1 marker "2. "
/1/4/1/2 marker "1. "
/1/4/1/2/1/0 marker "a. "
/1/4/1/2/1/1 marker "b. "
/1/6/0/0 marker "1. "
/1/6/0/1 marker "2. "
end
"#,
    ),
    ("move /1/2 /1/2/1 0", "refused 14 into-itself\n"),
    ("insert /1/4/1 1 Loose &amp; text", ""),
    ("set /1/4/1/2 value 7", ""),
    (
        "show",
        r#"show 17
/1/1/1/0 before "10 "
/1/2/1/3 before "“"
/1/2/1/3/1 before "‘"
/1/2/1/3/1 after "’"
/1/2/1/3 after "”"
/1/2/1/5 after "[2]"
/1/2/2/0 before "20 "
/1/4/1/0 marker "8. "
/1/4/1/2 marker "7. "
/1/4/1/3 marker "6. "
/1/4/1/3/1/0 marker "a. "
/1/4/1/3/1/1 marker "b. "
/1/6/0/0 marker "1. "
/1/6/0/1 marker "2. "
end
"#,
    ),
];

/// The script of the first lines, so many, and what they write.
pub fn script_of(alloc: Global, count: usize) -> Result<(String, String), Memory> {
    let mut script = String::new(alloc);
    let mut told = String::new(alloc);
    for (line, lines) in EDITS.iter().take(count) {
        script.push_str(line)?;
        script.push('\n')?;
        told.push_str(lines)?;
    }
    Ok((script, told))
}
