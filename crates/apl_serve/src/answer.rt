//! Answers as they are written.
ghost use Rattle.std.specs.Prelude.{◌≡◌, IfOk, false};
ghost use Rattle.serde_json.specs.View.{view};
ghost use Rattle.serde_json.specs.Written.{has_float};
ghost use Rattle.apl_workspace_file.specs.Trees.{list_tree};
ghost use Rattle.apl_serve.specs.Trees.{answer_tree, array_tree, line_of};

use crate::shown::{Shown, show_list};
use apl_arrays::Array;
use apl_session::Bytes;
use serde_json::{Value, json};
use std::alloc::{AllocError, Global};

/// A tree without floats as a line of JSON.
pub(crate) fn line_of(alloc: Global, tree: &Value) -> Result<Bytes, AllocError>
    requires { has_float (view tree.now) ≡ false }
    ensures { IfOk result (λ b. b ≡ line_of (view tree.now)) }
{
    let mut line = tree.to_vec(alloc)?;
    line.push(b'\n')?;
    Ok(Bytes::new(line))
}

/// The tree of an answer of one member.
fn one_member(alloc: Global, key: &str, value: Value) -> Result<Value, AllocError>
    ensures { IfOk result (λ v. view v ≡ answer_tree key.now (view value)) }
{
    json!(in alloc; {(key): value})
}

/// An answer of one member.
fn answer_of(alloc: Global, key: &str, value: Value) -> Result<Bytes, AllocError>
    requires { has_float (view value) ≡ false }
    ensures { IfOk result (λ b. b ≡ line_of (answer_tree key.now (view value))) }
{
    let tree = one_member(alloc, key, value)?;
    line_of(alloc, &tree)
}

/// An answer of one member: a list.
pub(crate) fn answer_list<T: Shown>(
    alloc: Global,
    key: &str,
    items: &[T],
) -> Result<Bytes, AllocError>
    requires { (x : T) → has_float (T.tree x) ≡ false }
    ensures { IfOk result (λ b. b ≡ line_of (answer_tree key.now (list_tree T.tree items.now))) }
{
    let tree = show_list(alloc, items)?;
    answer_of(alloc, key, tree)
}

/// An answer of one member: an array.
pub(crate) fn answer_array(alloc: Global, key: &str, array: &Array) -> Result<Bytes, AllocError>
    ensures { IfOk result (λ b. b ≡ line_of (answer_tree key.now (array_tree array.now))) }
{
    let tree = array.show(alloc)?;
    answer_of(alloc, key, tree)
}
