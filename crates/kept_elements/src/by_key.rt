//! Lists of what is kept of elements, looked up by key.

ghost use Rattle.std.specs.Prelude.{◌≡◌, ℕ, nat_eq, IfOk, option_copied};
ghost use Rattle.std.specs.HashMap.{get};
ghost use Rattle.generated_texts.specs.References.{kept_at};

use plain_types::memory::Memory;
use std::alloc::Global;
use std::collections::HashMap;

/// What is kept under each key, the first of them where a key comes twice. Linear time.
pub fn by_key<'a, V>(alloc: Global, kept: &'a [(usize, V)]) -> Result<HashMap<usize, &'a V>, Memory>
    ensures kept { IfOk result (λ map. (key : ℕ) → option_copied (get nat_eq map key) ≡ kept_at kept.now key) }
{
    let mut map = HashMap::new(alloc);
    for (key, value) in kept {
        if !map.contains_key(key) {
            map.insert(*key, value)?;
        }
    }
    Ok(map)
}
