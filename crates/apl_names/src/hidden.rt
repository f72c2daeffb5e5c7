//! What scopes hide of the slots.
ghost use Rattle.std.specs.Prelude.{◌≡◌, ◌<◌, ◌≤◌, ◌++◌, ◌∷◌, [], OnErr, OnOk};
ghost use Rattle.std.specs.Prelude.{All, drop, length, option_copied, take, vec_capacity, vec_len, MatchOption};
ghost use Rattle.std.specs.Map.{keys_of};
ghost use Rattle.std.specs.Str.{bytes_eq};
ghost use Rattle.indexmap.specs.IndexMap.{index_map_len, keys, IsUnique};
ghost use Rattle.apl_names.specs.Slots.{AreWithin, IsOldest, IsSound, NoneHides, beneath, first_content, held_of, hidden_of};
ghost use Rattle.apl_names.specs.Slots.{hides, laid, last_updated, name_at, named, scope_of, stack_of, updated, with_first, within};

use crate::binding::Binding;
use crate::recent::Recent;
use crate::slots::{SlotContent, Symbols, find, put};
use apl_symbols::Name;
use std::alloc::AllocError;
use std::mem;

/// A scope hides what a slot held, which holds this content from now on. After an error nothing has changed.
#[inline(always)]
pub(crate) fn hide(
    symbols: &mut Symbols,
    hidden: &mut Vec<SlotContent>,
    slot: usize,
    content: Option<Binding>,
) -> Result<(), AllocError>
    requires { slot < index_map_len symbols.old }
    ensures scope { OnOk result ((keys symbols.new ≡ keys symbols.old)
        × (scope_of symbols.new.entries ≡ updated (scope_of symbols.old.entries) (name_at (keys symbols.old) slot) content)) }
    ensures hidden { OnOk result (hidden.new.items ≡ hidden.old.items
        ++ record { slot = slot; content = scope_of symbols.old.entries (name_at (keys symbols.old) slot) } ∷ []) }
    ensures err { OnErr result ((symbols.new ≡ symbols.old) × (hidden.new.items ≡ hidden.old.items)) }
{
    make_room(hidden)?;
    let (_, held) = symbols.pair_mut(slot);
    let content = mem::replace(held, content);
    hidden.push_reserved(SlotContent { slot, content });
    Ok(())
}

/// Makes room for one more.
#[inline(always)]
fn make_room(hidden: &mut Vec<SlotContent>) -> Result<(), AllocError>
    ensures same { hidden.new.items ≡ hidden.old.items }
    ensures room { OnOk result (vec_len hidden.new < vec_capacity hidden.new) }
{
    if hidden.len() < hidden.capacity() {
        return Ok(());
    }
    grow(hidden)
}

/// Makes room for one more where there is none. It stands apart, since mostly there is some.
#[inline(never)]
fn grow(hidden: &mut Vec<SlotContent>) -> Result<(), AllocError>
    ensures same { hidden.new.items ≡ hidden.old.items }
    ensures room { OnOk result (vec_len hidden.new < vec_capacity hidden.new) }
{
    hidden.reserve(1)
}

/// Gives each slot its old content again, the last first. The list is empty then.
pub(crate) fn restore(symbols: &mut Symbols, hidden: &mut Vec<SlotContent>)
    requires { All (λ s. s.slot < index_map_len symbols.old) hidden.old.items }
    ensures keys { keys symbols.new ≡ keys symbols.old }
    ensures scope { scope_of symbols.new.entries
        ≡ laid (scope_of symbols.old.entries) (named (keys symbols.old) hidden.old.items) }
    ensures empty { hidden.new.items ≡ [] }
{
    while !hidden.is_empty() {
        let SlotContent { slot, content } = hidden.take_last();
        put(symbols, slot, content);
    }
}

/// Takes the content out of a name's slot, where one of these hidden contents is of the slot. The slots hold the same once
/// those are back.
pub(crate) fn take_hidden(
    symbols: &mut Symbols,
    recent: &Recent,
    hidden: &[SlotContent],
    name: &Name,
) -> Option<Binding>
    requires { All (λ s. s.slot < index_map_len symbols.old) hidden.now }
    ensures keys { keys symbols.new ≡ keys symbols.old }
    ensures content { result ≡ within (keys_of (named (keys symbols.old) hidden.now)) (scope_of symbols.old.entries) name.now }
    ensures back { laid (scope_of symbols.new.entries) (named (keys symbols.old) hidden.now)
        ≡ laid (scope_of symbols.old.entries) (named (keys symbols.old) hidden.now) }
{
    let slot = find(symbols, recent, name)?;
    // The map says beside its length that its names differ.
    let _unique = symbols.len();
    if !is_hidden(hidden, slot) {
        return None;
    }
    let (_, content) = symbols.pair_mut(slot);
    content.take()
}

/// Gives a name a content in the global scope. Of the scopes, of which so many stand, the oldest that hides the slot keeps what that has.
pub(crate) fn put_global(
    symbols: &mut Symbols,
    scopes: &mut Vec<Vec<SlotContent>>,
    count: usize,
    slot: usize,
    content: Option<Binding>,
)
    requires count { count ≤ length scopes.old.items }
    requires within { slot < index_map_len symbols.old }
    requires unique { IsUnique bytes_eq symbols.old }
    requires sound { IsSound symbols.old.entries (take count scopes.old.items) }
    ensures count { count ≤ length scopes.new.items }
    ensures over { drop count scopes.new.items ≡ drop count scopes.old.items }
    ensures sound { IsSound symbols.new.entries (take count scopes.new.items) }
    ensures stack { stack_of (held_of symbols.new.entries (take count scopes.new.items))
        ≡ last_updated (name_at (keys symbols.old) slot) content (stack_of (held_of symbols.old.entries (take count scopes.old.items))) }
{
    match oldest(&scopes[..count], slot) {
        Some(scope) => put_first(scopes[scope].as_mut_slice(), slot, content),
        None => put(symbols, slot, content),
    }
}

/// What a slot holds beneath these scopes. The oldest of them that hides it keeps that; where none does, the slot
/// itself holds it.
pub(crate) fn content_beneath<'a>(
    symbols: &'a Symbols,
    scopes: &'a [Vec<SlotContent>],
    slot: usize,
) -> Option<&'a Binding>
    requires slot { slot < index_map_len symbols.now }
    requires unique { IsUnique bytes_eq symbols.now }
    requires scopes { AreWithin (index_map_len symbols.now) scopes.now }
    ensures { option_copied result
        ≡ beneath (scope_of symbols.now.entries) (hidden_of (keys symbols.now) scopes.now) (name_at (keys symbols.now) slot) }
{
    let (_, content) = symbols.get_index(slot)?;
    match oldest(scopes, slot) {
        Some(scope) => first_of(scopes[scope].as_slice(), slot),
        None => content.as_ref(),
    }
}

/// The oldest scope that hides a slot.
fn oldest(scopes: &[Vec<SlotContent>], slot: usize) -> Option<usize>
    ensures { MatchOption result (NoneHides slot scopes.now) (IsOldest slot scopes.now) }
{
    for (scope, hidden) in scopes.iter().enumerate() {
        if is_hidden(hidden.as_slice(), slot) {
            return Some(scope);
        }
    }
    None
}

/// Whether one of these contents is of a slot.
pub(crate) fn is_hidden(hidden: &[SlotContent], slot: usize) -> bool
    ensures { result ≡ hides slot hidden.now }
{
    hidden.iter().any(|entry| entry.slot == slot)
}

/// The first content of a slot.
fn first_of(hidden: &[SlotContent], slot: usize) -> Option<&Binding>
    ensures { option_copied result ≡ first_content slot hidden.now }
{
    for entry in hidden {
        if entry.slot == slot {
            return entry.content.as_ref();
        }
    }
    None
}

/// Changes the first content of a slot.
fn put_first(hidden: &mut [SlotContent], slot: usize, content: Option<Binding>)
    ensures { hidden.new ≡ with_first slot content hidden.old }
{
    for entry in hidden.iter_mut() {
        if entry.slot == slot {
            entry.content = content;
            return;
        }
    }
}
