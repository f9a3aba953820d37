//! Files by their names, in memory.

ghost use Rattle.std.specs.Prelude.{◌≡◌, ◌↔◌, IsTrue, ◌≤◌, length, option_copied};
ghost use Rattle.std.specs.Str.{chars};
ghost use Rattle.ports.specs.Files.{IsRead, look_up};

use plain_types::list::List;
use plain_types::text::Text;

/// A file in memory with its name.
#[derive(Drop)]
pub struct NamedFile {
    pub name: Text,
    pub bytes: List<u8>,
}

/// Whether this is the file's name.
fn is_named(file: &NamedFile, name: &str) -> bool
    ensures same { IsTrue result ↔ (file.now.name ≡ chars name.now) }
{
    file.name.as_str() == name
}

/// The bytes of the first file of that name, in time linear in the names.
pub(crate) fn find<'a>(files: &'a [NamedFile], name: &str) -> Option<&'a [u8]>
    ensures first { option_copied result ≡ look_up files.now (chars name.now) }
{
    for file in files {
        if is_named(file, name) {
            return Some(file.bytes.as_slice());
        }
    }
    None
}

/// Copies bytes, from the byte `at` on, into a front of the buffer, and answers how many: as many as
/// there are and fit.
pub(crate) fn read_from(bytes: &[u8], at: u64, buf: &mut [u8]) -> usize
    ensures bound { result ≤ length buf.new }
    ensures read { IsRead bytes.now at buf.new result }
{
    let start = if at < bytes.len() as u64 {
        at as usize
    } else {
        bytes.len()
    };
    let rest = &bytes[start..];
    let count = rest.len().min(buf.len());
    buf[..count].copy_from_slice(&rest[..count]);
    count
}
