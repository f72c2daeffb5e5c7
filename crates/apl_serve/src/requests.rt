//! What a request asks for is done.
ghost use Rattle.std.specs.Prelude.{◌≡◌, ◌≤◌, length, option_and_then, option_map, IfErr, IfOk, IfSome};
ghost use Rattle.serde_json.specs.Data.{depth};
ghost use Rattle.serde_json.specs.Read.{max_depth};
ghost use Rattle.serde_json.specs.Find.{as_bool, as_object, as_str};
ghost use Rattle.serde_json.specs.View.{view};
ghost use Rattle.apl_workspace_file.specs.Json.{IsJson};
ghost use Rattle.apl_serve.specs.Answers.{Does, DoesBytes, most};
ghost use Rattle.apl_serve.specs.Requests as spec;
ghost use Rattle.apl_serve.specs.Requests.{advance_of, asked, look_at, only_member, open_of, request_of, sight_of, where_true};
ghost use Rattle.apl_serve.specs.inside.Parts.{IsUnread};

use crate::changes::{advance, interrupt, open_anew, type_line};
use crate::error::Refusal;
use crate::sights::{indicator, listing, names, save, value};
use apl_kept::Kept;
use apl_session::Bytes;
use serde_json::Value;
use std::alloc::Global;

/// The most steps of a request.
const MAX_STEPS: u64 = 1_000_000_000;

/// Types the line of a request.
fn do_type(alloc: Global, kept: &mut Kept, wanted: &Value) -> Result<Bytes, Refusal>
    ensures { Does (option_map spec.Line (as_str (view wanted.now))) kept.old result kept.new }
{
    match wanted.as_str() {
        Some(line) => type_line(alloc, kept, line),
        None => Err(Refusal::Request),
    }
}

/// Makes the steps of a request.
fn do_advance(alloc: Global, kept: &mut Kept, wanted: &Value) -> Result<Bytes, Refusal>
    ensures { Does (advance_of (view wanted.now)) kept.old result kept.new }
{
    match wanted.as_u64() {
        Some(count) if count <= MAX_STEPS => advance(alloc, kept, count),
        _ => Err(Refusal::Request),
    }
}

/// Abandons what runs, where true stands for it.
fn do_interrupt(alloc: Global, kept: &mut Kept, wanted: &Value) -> Result<Bytes, Refusal>
    ensures { Does (where_true spec.Interrupt (as_bool (view wanted.now))) kept.old result kept.new }
{
    match wanted.as_bool() {
        Some(true) => interrupt(alloc, kept),
        _ => Err(Refusal::Request),
    }
}

/// Begins the session anew on the workspace of a request.
fn do_open(alloc: Global, kept: &mut Kept, wanted: &Value) -> Result<Bytes, Refusal>
    requires { depth (view wanted.now) ≤ max_depth }
    ensures { Does (open_of (view wanted.now)) kept.old result kept.new }
{
    match wanted {
        Value::Null | Value::Object(_) => open_anew(alloc, kept, wanted),
        _ => Err(Refusal::Request),
    }
}

/// Looks at the session as the word of a request says.
fn do_look(alloc: Global, kept: &Kept, wanted: &Value) -> Result<Bytes, Refusal>
    ensures { Does (look_at (as_str (view wanted.now))) kept.now result kept.now }
{
    match wanted.as_str() {
        Some("names") => names(alloc, kept),
        Some("indicator") => indicator(alloc, kept),
        _ => Err(Refusal::Request),
    }
}

/// Lists the function of a request.
fn do_listing(alloc: Global, kept: &Kept, wanted: &Value) -> Result<Bytes, Refusal>
    ensures { Does (option_map spec.Listing (as_str (view wanted.now))) kept.now result kept.now }
{
    match wanted.as_str() {
        Some(word) => listing(alloc, kept, word),
        None => Err(Refusal::Request),
    }
}

/// Tells the value of the name of a request.
fn do_value(alloc: Global, kept: &Kept, wanted: &Value) -> Result<Bytes, Refusal>
    ensures { Does (option_map spec.Value (as_str (view wanted.now))) kept.now result kept.now }
{
    match wanted.as_str() {
        Some(word) => value(alloc, kept, word),
        None => Err(Refusal::Request),
    }
}

/// Saves the workspace, where true stands for it.
fn do_save(alloc: Global, kept: &Kept, wanted: &Value) -> Result<Bytes, Refusal>
    ensures { Does (where_true spec.Save (as_bool (view wanted.now))) kept.now result kept.now }
{
    match wanted.as_bool() {
        Some(true) => save(alloc, kept),
        _ => Err(Refusal::Request),
    }
}

/// Looks at the session as the key of a request says.
fn see(alloc: Global, kept: &Kept, key: &str, wanted: &Value) -> Result<Bytes, Refusal>
    ensures { Does (sight_of key.now (view wanted.now)) kept.now result kept.now }
{
    if key == "look" {
        return do_look(alloc, kept, wanted);
    }
    if key == "listing" {
        return do_listing(alloc, kept, wanted);
    }
    if key == "value" {
        return do_value(alloc, kept, wanted);
    }
    if key == "save" {
        return do_save(alloc, kept, wanted);
    }
    Err(Refusal::Request)
}

/// Does what the key of a request says.
fn do_member(alloc: Global, kept: &mut Kept, key: &str, wanted: &Value) -> Result<Bytes, Refusal>
    requires { depth (view wanted.now) ≤ max_depth }
    ensures { Does (asked key.now (view wanted.now)) kept.old result kept.new }
{
    if key == "type" {
        return do_type(alloc, kept, wanted);
    }
    if key == "advance" {
        return do_advance(alloc, kept, wanted);
    }
    if key == "interrupt" {
        return do_interrupt(alloc, kept, wanted);
    }
    if key == "open" {
        return do_open(alloc, kept, wanted);
    }
    see(alloc, kept, key, wanted)
}

/// The one member of a tree, if it is an object with one.
fn only_member(tree: &Value) -> Option<(&str, &Value)>
    ensures member { option_map (λ m. (m.0.now, view m.1.now)) result ≡ option_and_then only_member (as_object (view tree.now)) }
    ensures nests { IfSome result (λ m. depth (view m.1.now) ≤ depth (view tree.now)) }
{
    let mut members = tree.as_object()?.iter();
    let (key, wanted) = members.next()?;
    match members.next() {
        None => Some((key.as_str(), wanted)),
        Some(_) => None,
    }
}

/// Does what a tree asks for.
fn do_tree(alloc: Global, kept: &mut Kept, tree: &Value) -> Result<Bytes, Refusal>
    requires { depth (view tree.now) ≤ max_depth }
    ensures { Does (request_of (view tree.now)) kept.old result kept.new }
{
    match only_member(tree) {
        Some((key, wanted)) => do_member(alloc, kept, key, wanted),
        None => Err(Refusal::Request),
    }
}

/// The tree of these bytes.
fn parse(alloc: Global, bytes: &[u8]) -> Result<Value, Refusal>
    ensures json { IfOk result (λ v. IsJson bytes.now (view v)) }
    ensures nests { IfOk result (λ v. depth (view v) ≤ max_depth) }
    ensures refused { IfErr result (λ e. IsUnread bytes.now e) }
{
    match Value::from_slice(alloc, bytes) {
        Ok(tree) => Ok(tree),
        Err(e) if e.is_memory() => Err(Refusal::Memory),
        Err(_) => Err(Refusal::Json),
    }
}

/// Does what the bytes of a request ask for.
pub(crate) fn do_request(alloc: Global, kept: &mut Kept, request: &[u8]) -> Result<Bytes, Refusal>
    requires { length request.now ≤ most }
    ensures { DoesBytes request.now kept.old result kept.new }
{
    let tree = parse(alloc, request)?;
    do_tree(alloc, kept, &tree)
}
