//! What the global scope has, whatever newer scopes say of it.
ghost use Rattle.std.specs.Prelude.{◌≡◌, ◌<◌, IfOk, option_map};
ghost use Rattle.std.specs.Map.Iter.{deref_pair};
ghost use Rattle.std.specs.Str.{bytes_eq};
ghost use Rattle.indexmap.specs.IndexMap.{index_map_len, keys, IsUnique};
ghost use Rattle.apl_names.specs.Maps.{entry_at, kinds_in, last_map};
ghost use Rattle.apl_names.specs.Slots.{IsSound, held_of, maps_of, name_at};

use crate::binding::Binding;
use crate::hidden::content_beneath;
use crate::slots::{SlotContent, Symbols};
use apl_symbols::Name;
use std::alloc::{AllocError, Global};
use std::collections::BTreeMap;

/// The name of a slot with what it stands for in the global scope, which lies beneath all others, if that has it.
fn global_at<'a>(
    symbols: &'a Symbols,
    scopes: &'a [Vec<SlotContent>],
    slot: usize,
) -> Option<(&'a Name, &'a Binding)>
    requires within { slot < index_map_len symbols.now }
    requires unique { IsUnique bytes_eq symbols.now }
    requires sound { IsSound symbols.now.entries scopes.now }
    ensures { option_map deref_pair result
        ≡ entry_at (last_map (maps_of (held_of symbols.now.entries scopes.now))) (name_at (keys symbols.now) slot) }
{
    let (name, _) = symbols.get_index(slot)?;
    Some((name, content_beneath(symbols, scopes, slot)?))
}

/// The names of the global scope, ascending, and whether each is that of a function.
pub(crate) fn kinds(
    alloc: Global,
    symbols: &Symbols,
    scopes: &[Vec<SlotContent>],
) -> Result<Vec<(Name, bool)>, AllocError>
    requires { IsSound symbols.now.entries scopes.now }
    ensures { IfOk result (λ kinds. kinds.items ≡ kinds_in (last_map (maps_of (held_of symbols.now.entries scopes.now)))) }
{
    let mut kinds = BTreeMap::new(alloc);
    for slot in (0..symbols.len()).rev() {
        if let Some((name, binding)) = global_at(symbols, scopes, slot) {
            kinds.insert(*name, binding.is_function())?;
        }
    }
    kinds.into_iter().collect(alloc)
}
