//! The place of a fault.

ghost use Rattle.std.specs.Prelude.{◌≡◌, ◌+◌, ◌-◌, ◌≤◌, length, take};
ghost use Rattle.std.specs.Str.{chars};
ghost use Rattle.xml_definitions.specs.Faults.{line_feeds, last_line};
ghost use Rattle.xhtml_reader.specs.declared.fault.DocFault.TheVariants.{Malformed};

use crate::fault::DocFault;
use reading::characters::first_char;

fn char_count(text: &str) -> usize
    ensures { result ≡ length (chars text.now) }
{
    text.chars().count()
}

/// The line and the column at which `rest`, the end of a text, begins.
fn place_of(text: &str, rest: &str) -> (usize, usize)
    requires { length (chars rest.now) ≤ length (chars text.now) }
    ensures line { result.0 ≡ 1 + line_feeds (take (length (chars text.now) - length (chars rest.now)) (chars text.now)) }
    ensures column { result.1 ≡ 1 + length (last_line (take (length (chars text.now) - length (chars rest.now)) (chars text.now))) }
{
    let count = char_count(text) - char_count(rest);
    let mut left = text;
    let mut line = 1;
    let mut column = 1;
    for _ in 0..count {
        if let Some((c, after)) = first_char(left) {
            if c == '\n' {
                line += 1;
                column = 1;
            } else {
                column += 1;
            }
            left = after;
        }
    }
    (line, column)
}

/// The fault of a text in which `rest`, its end, does not fit.
pub(crate) fn malformed(text: &str, rest: &str) -> DocFault
    requires { length (chars rest.now) ≤ length (chars text.now) }
    ensures { let front = take (length (chars text.now) - length (chars rest.now)) (chars text.now) in
        result ≡ Malformed (1 + line_feeds front) (1 + length (last_line front)) }
{
    let (line, column) = place_of(text, rest);
    DocFault::Malformed { line, column }
}
