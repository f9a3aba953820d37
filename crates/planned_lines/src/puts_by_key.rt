//! What a planned edit puts, looked up by key.

ghost use Rattle.std.specs.Prelude.{◌≡◌, ℕ, nat_eq, IfOk, option_copied};
ghost use Rattle.std.specs.HashMap.{get};
ghost use Rattle.merged_walk.specs.Entries.{last_at};

use kept_elements::kept_change::KeptChange;
use plain_types::memory::Memory;
use std::alloc::Global;
use std::collections::HashMap;

/// What is put under each key: of a key that comes twice the last, which stays. It takes memory and time linear in what is put.
pub(crate) fn puts_by_key<'a>(
    alloc: Global,
    puts: &'a [(usize, KeptChange)],
) -> Result<HashMap<usize, &'a KeptChange>, Memory>
    ensures last { IfOk result (λ map. (key : ℕ) → option_copied (get nat_eq map key) ≡ last_at puts.now key) }
{
    let mut map = HashMap::new(alloc);
    for (key, change) in puts {
        map.insert(*key, change)?;
    }
    Ok(map)
}
