//! Texts that rows have line by line.

use plain_types::memory::Memory;
use std::alloc::Global;

/// The lines of a text, without their line feeds.
pub type Lines = &'static [&'static str];

/// A document, its sheet, and its dump.
pub type Dump = (&'static str, &'static str, Lines);

/// The text of these lines.
pub fn text_of(alloc: Global, lines: &[&str]) -> Result<String, Memory> {
    let mut text = String::new(alloc);
    for line in lines {
        text.push_str(line)?;
        text.push('\n')?;
    }
    Ok(text)
}
