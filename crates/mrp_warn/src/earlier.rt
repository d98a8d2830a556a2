//! Equal keys before one.

ghost use Rattle.std.specs.Prelude.{◌≡◌, ℕ, IfOk, OnOk, Some, if◌then◌else◌, is_some, unwrap_or};
ghost use Rattle.indexmap.specs.IndexMap.{get};
ghost use Rattle.mrp_warn.specs.Rows.{earlier};

use indexmap::IndexMap;
use mrp_qty::NoMemory;
use std::alloc::Global;
use std::hash::Hash;

// The first place of a key so far; if there is none, this place is noted as such.
fn first_of<K: Copy + Eq + Hash>(
    firsts: &mut IndexMap<K, usize>,
    key: K,
    place: usize,
) -> Result<Option<usize>, NoMemory>
    ensures first { IfOk result (λ first. first ≡ get K.eq firsts.old key) }
    ensures noted { IfOk result (λ first. (q : K) → get K.eq firsts.new q ≡ (if is_some first then get K.eq firsts.old q else if K.eq key q then Some place else get K.eq firsts.old q)) }
{
    if let Some(first) = firsts.get(&key) {
        return Ok(Some(*first));
    }
    firsts.insert(key, place)?;
    Ok(None)
}

// For each key the place of the first one before it that equals it, if there is one.
pub(crate) fn earlier<K: Copy + Eq + Hash>(
    alloc: Global,
    keys: &[K],
) -> Result<Vec<Option<usize>>, NoMemory>
    ensures { IfOk result (λ places. places.items ≡ earlier K.eq keys.now) }
{
    let mut firsts = IndexMap::new(alloc);
    let mut places = Vec::with_capacity(alloc, keys.len())?;
    for (place, key) in keys.iter().enumerate() {
        places.push(first_of(&mut firsts, *key, place)?)?;
    }
    Ok(places)
}
