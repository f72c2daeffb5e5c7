//! Workspace files as bytes.
ghost use Rattle.std.specs.Prelude.{◌≡◌, ◌≢◌, IfOk, IfErr, MatchResult};
ghost use Rattle.serde_json.specs.Data.{Data};
ghost use Rattle.serde_json.specs.View.{view};
ghost use Rattle.serde_json.specs.Written.{compact_text};
ghost use Rattle.apl_workspace_file.specs.Fitting.{Fits};
ghost use Rattle.apl_workspace_file.specs.Json.{IsJson};
ghost use Rattle.apl_workspace_file.specs.Trees.{tree_of};
ghost use Rattle.apl_workspace_file.specs.declared.error.ReadError.TheVariants.{NotJson, Form, Memory};
ghost use Rattle.apl_workspace_file.specs.declared.fields.File.{File};

use crate::error::ReadError;
use crate::field::Field;
use crate::fields::File;
use serde_json::Value;
use std::alloc::{AllocError, Global};

/// The workspace file that these bytes are. NotJson: they aren't UTF-8, or the text is no JSON, or nests
/// more than 127 deep. Form: they are JSON of a tree that no file of its version has. Of a key that
/// stands twice in an object the last value counts.
pub fn read(alloc: Global, bytes: &[u8]) -> Result<File, ReadError>
    // What is read is a file that keeps to its version, and the bytes are the JSON of its tree.
    ensures file { IfOk result (λ f. Fits f × IsJson bytes.now (tree_of f)) }
    ensures not_json { IfErr result (λ e. e ≡ NotJson → (d : Data) → ¬ IsJson bytes.now d) }
    ensures form { IfErr result (λ e. e ≡ Form → (d : Data) × IsJson bytes.now d
        × ((f : File) → Fits f → ¬ (tree_of f ≡ d))) }
    // Where the bytes are such a file, that one is read, unless memory runs out.
    ensures complete { (f : File) → Fits f → IsJson bytes.now (tree_of f)
        → MatchResult result (λ g. g ≡ f) (λ e. e ≡ Memory) }
{
    let tree = parse(alloc, bytes)?;
    Ok(File::read(alloc, tree)?)
}

// The tree of these bytes.
fn parse(alloc: Global, bytes: &[u8]) -> Result<Value, ReadError>
    ensures json { IfOk result (λ v. IsJson bytes.now (view v)) }
    ensures refused { IfErr result (λ e. e ≢ Memory
        → (e ≡ NotJson) × ((d : Data) → ¬ IsJson bytes.now d)) }
{
    match Value::from_slice(alloc, bytes) {
        Ok(tree) => Ok(tree),
        Err(e) if e.is_memory() => Err(ReadError::Memory),
        Err(_) => Err(ReadError::NotJson),
    }
}

/// The bytes of a file: the compact JSON of its tree, with the keys of each object ascending. `read`
/// gives the file back where its numbers and contexts keep to its version.
pub fn write(alloc: Global, file: &File) -> Result<Vec<u8>, AllocError>
    ensures text { IfOk result (λ b. b.items ≡ compact_text (tree_of file.now)) }
    // Its tree doesn't nest deeper than what is read.
    ensures json { IfOk result (λ b. IsJson b.items (tree_of file.now)) }
{
    file.write(alloc)?.to_vec(alloc)
}

/// The law that files of one tree are one file.
pub fn one_file()
    ensures { (f g : File) → tree_of f ≡ tree_of g → f ≡ g }
{}
