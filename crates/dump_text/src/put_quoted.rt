//! A text in quotes, with its escapes.

ghost use Rattle.std.specs.Prelude.{◌≡◌, ◌<◌, OnOk, OnErr, encode_utf8_all};
ghost use Rattle.std.specs.Char.{digit_char};
ghost use Rattle.std.specs.List.{flat_map};
ghost use Rattle.std.specs.Str.{chars};
ghost use Rattle.dump_definitions.specs.Dump.{escape, is_escaped, quoted, shown};
ghost use Rattle.ports.specs.Causes.{HasCause};
ghost use Rattle.ports.specs.Grown.{grown, GrowsByFront};

use ports::failed::Failed;
use ports::sink::{Sink, put_all};

/// Whether the character of this byte is written as an escape. Bytes of characters beyond ASCII never
/// are.
fn is_escaped(byte: u8) -> bool
    ensures escaped { result ≡ is_escaped byte }
{
    byte == b'"' || byte == b'\\' || byte < b' ' || byte == 127
}

fn hexadecimal_digit(digit: u8) -> u8
    requires { digit < 16 }
    ensures digit { result ≡ digit_char digit }
{
    if digit < 10 {
        b'0' + digit
    } else {
        b'a' + (digit - 10)
    }
}

/// Puts the escape of a character.
fn put_escape<O: Sink>(byte: u8, out: &mut O) -> Result<(), Failed>
    ensures ok { OnOk result (O.out out.new ≡ grown (O.out out.old) (escape byte)) }
    ensures failed { OnErr result (GrowsByFront (O.out out.old) (O.out out.new) (escape byte)) }
    ensures cause { HasCause (O.faults out.old) (O.faults out.new) result }
{
    match byte {
        b'"' => put_all(out, b"\\\""),
        b'\\' => put_all(out, b"\\\\"),
        b'\n' => put_all(out, b"\\n"),
        0..16 => put_all(out, &[b'\\', b'u', b'{', hexadecimal_digit(byte), b'}']),
        _ => {
            let (high, low) = (hexadecimal_digit(byte / 16), hexadecimal_digit(byte % 16));
            put_all(out, &[b'\\', b'u', b'{', high, low, b'}'])
        }
    }
}

/// Puts the bytes of a text with their escapes: the runs between two escapes as they stand.
fn put_shown<O: Sink>(bytes: &[u8], out: &mut O) -> Result<(), Failed>
    ensures ok { OnOk result (O.out out.new ≡ grown (O.out out.old) (flat_map shown bytes.now)) }
    ensures failed { OnErr result (GrowsByFront (O.out out.old) (O.out out.new) (flat_map shown bytes.now)) }
    ensures cause { HasCause (O.faults out.old) (O.faults out.new) result }
{
    let mut start = 0;
    for (place, byte) in bytes.iter().enumerate() {
        if is_escaped(*byte) {
            put_all(out, &bytes[start..place])?;
            put_escape(*byte, out)?;
            start = place + 1;
        }
    }
    put_all(out, &bytes[start..])
}

/// Puts the text in quotes, with its escapes. After `Failed` a front of its bytes went out. It takes no
/// memory, and time linear in the text.
pub fn put_quoted<O: Sink>(text: &str, out: &mut O) -> Result<(), Failed>
    ensures ok { OnOk result (O.out out.new ≡ grown (O.out out.old) (encode_utf8_all (quoted (chars text.now)))) }
    ensures failed { OnErr result (GrowsByFront (O.out out.old) (O.out out.new) (encode_utf8_all (quoted (chars text.now)))) }
    ensures cause { HasCause (O.faults out.old) (O.faults out.new) result }
{
    put_all(out, b"\"")?;
    put_shown(text.as_bytes(), out)?;
    put_all(out, b"\"")
}
