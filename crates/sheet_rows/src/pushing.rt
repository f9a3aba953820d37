//! Appending several texts at once, and numbers.

use itoa::{Buffer, Integer};
use plain_types::memory::Memory;
use plain_types::text::Text;

pub fn push_all(parts: &[&str], out: &mut Text) -> Result<(), Memory> {
    for part in parts {
        out.push_str(part)?;
    }
    Ok(())
}

/// Appends a number in decimal.
pub fn push_number<I: Integer>(number: I, out: &mut Text) -> Result<(), Memory> {
    let mut buffer = Buffer::new();
    out.push_str(buffer.format(number))
}
