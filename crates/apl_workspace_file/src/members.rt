//! The members of an object, one after the other in the order of their keys.
ghost use Rattle.std.specs.Prelude.{◌≡◌, Ok, Err, MatchResult, OnOk, codes, option_map};
ghost use Rattle.serde_json.specs.Data.{string, put as with_member};
ghost use Rattle.serde_json.specs.View.{view, members_view};
ghost use Rattle.apl_workspace_file.specs.Reading.{Gives, GivesNext, form_of, field, next, ended, word_of, has, kind_of};
ghost use Rattle.serde_json.specs.Find.{as_object};

use crate::error::TreeError;
use crate::field::Field;
use serde_json::{Map, Value, put};
use std::alloc::{AllocError, Global};
use std::collections::btree_map::IntoIter;

/// The members of an object that are left, in the order of their keys.
pub(crate) type Members = IntoIter<String, Value, Global>;

/// The members of a tree that is an object.
pub(crate) fn object(value: Value) -> Result<Members, TreeError>
    ensures { MatchResult result
        (λ ms. form_of (as_object (view value)) ≡ Ok (members_view ms))
        (λ e. form_of (as_object (view value)) ≡ Err e) }
{
    match value {
        Value::Object(members) => Ok(members.into_iter()),
        _ => Err(TreeError::Form),
    }
}

// The value of the next member, where that has this key.
fn next_member(members: &mut Members, key: &str) -> Result<Value, TreeError>
    ensures { MatchResult result
        (λ v. field key.now (members_view members.old) ≡ Ok (view v, members_view members.new))
        (λ e. field key.now (members_view members.old) ≡ Err e) }
{
    match members.next() {
        Some((name, value)) if name.as_str() == key => Ok(value),
        _ => Err(TreeError::Form),
    }
}

/// The next member as a field, where it has this key.
#[tactic(auto, unfolding(crate::specs::Reading::next))]
pub(crate) fn next_field<T: Field>(
    members: &mut Members,
    alloc: Global,
    key: &str,
) -> Result<T, TreeError>
    ensures { GivesNext result (members_view members.new) (next key.now T.reading (members_view members.old)) }
{
    T::read(alloc, next_member(members, key)?)
}

/// Passes the next member where it is the kind, and this one.
#[tactic(auto, unfolding(crate::specs::Reading::next, crate::specs::Reading::word_of))]
pub(crate) fn next_kind(members: &mut Members, kind: &str) -> Result<(), TreeError>
    ensures { GivesNext result (members_view members.new) (next (codes "kind") (word_of kind.now) (members_view members.old)) }
{
    match next_member(members, "kind")?.as_str() {
        Some(found) if found == kind => Ok(()),
        _ => Err(TreeError::Form),
    }
}

/// Passes where no member is left.
pub(crate) fn end(mut members: Members) -> Result<(), TreeError>
    ensures { Gives result (ended (members_view members)) }
{
    match members.next() {
        None => Ok(()),
        Some(_) => Err(TreeError::Form),
    }
}

/// Whether it is an object with a member of this key.
pub(crate) fn has(value: &Value, key: &str) -> bool
    ensures { result ≡ has key.now (view value.now) }
{
    value.get(key).is_some()
}

/// The kind that it says it is.
pub(crate) fn kind(value: &Value) -> Option<&str>
    ensures { option_map (λ k. k.now) result ≡ kind_of (view value.now) }
{
    match value.get("kind") {
        Some(kind) => kind.as_str(),
        None => None,
    }
}

/// Gives an object a member: the tree of a field.
pub(crate) fn put_field<T: Field>(
    object: &mut Map<String, Value>,
    alloc: Global,
    key: &str,
    field: &T,
) -> Result<(), AllocError>
    ensures { OnOk result (members_view object.new.entries ≡ with_member key.now (T.tree field.now) (members_view object.old.entries)) }
{
    let value = field.write(alloc)?;
    put(object, alloc, key, value)
}

/// Gives an object a member: this very text.
pub(crate) fn put_word(
    object: &mut Map<String, Value>,
    alloc: Global,
    key: &str,
    word: &str,
) -> Result<(), AllocError>
    ensures { OnOk result (members_view object.new.entries ≡ with_member key.now (string word.now) (members_view object.old.entries)) }
{
    let value = Value::String(String::from_str(alloc, word)?);
    put(object, alloc, key, value)
}
