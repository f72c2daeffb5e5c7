//! What a session tells.
ghost use Rattle.std.specs.Prelude.{◌≡◌, IfOk, OnOk};
ghost use Rattle.serde_json.specs.View.{members_view, view};
ghost use Rattle.apl_serve.specs.Trees.{line_of, standing_members, told_tree, with_fault, with_place, with_steps, word_of};

use crate::answer::line_of;
use crate::shown::{Shown, show_list};
use apl_kept::{Kept, Place, Told};
use apl_session::Bytes;
use serde_json::{Map, Value, json, put};
use std::alloc::{AllocError, Global};

/// The word for how a session stands.
fn word_of(told: Told) -> &'static str
    ensures { result.now ≡ word_of told }
{
    match told {
        Told::Running => "running",
        Told::Stopped => "stopped",
        Told::Fault(_) => "fault",
        Told::Idle => "idle",
    }
}

/// The members that each answer of a session has that stands so.
fn standing_members(
    alloc: Global,
    kept: &Kept,
    told: Told,
) -> Result<Map<String, Value>, AllocError>
    ensures { IfOk result (λ m. members_view m.entries ≡ standing_members kept.now told) }
{
    let mut members = Map::new(alloc);
    let lines = show_list(alloc, kept.output())?;
    put(&mut members, alloc, "lines", lines)?;
    put(&mut members, alloc, "next", kept.next_line().show(alloc)?)?;
    let state = json!(in alloc; (word_of(told)))?;
    put(&mut members, alloc, "state", state)?;
    Ok(members)
}

/// Puts the number of the fault that is told, if one is.
fn put_fault(alloc: Global, members: &mut Map<String, Value>, told: Told) -> Result<(), AllocError>
    ensures { OnOk result (members_view members.new.entries ≡ with_fault told (members_view members.old.entries)) }
{
    match told {
        Told::Fault(fault) => {
            let number = usize::from(fault.number()).show(alloc)?;
            put(members, alloc, "fault", number)
        }
        Told::Running | Told::Stopped | Told::Idle => Ok(()),
    }
}

/// Puts a place, where there is one.
fn put_place(
    alloc: Global,
    members: &mut Map<String, Value>,
    place: Option<Place>,
) -> Result<(), AllocError>
    ensures { OnOk result (members_view members.new.entries ≡ with_place place (members_view members.old.entries)) }
{
    match place {
        Some(place) => put(members, alloc, "place", place.show(alloc)?),
        None => Ok(()),
    }
}

/// Puts how many steps were made, where some were asked for.
fn put_steps(
    alloc: Global,
    members: &mut Map<String, Value>,
    steps: Option<u64>,
) -> Result<(), AllocError>
    ensures { OnOk result (members_view members.new.entries ≡ with_steps steps (members_view members.old.entries)) }
{
    match steps {
        Some(steps) => put(members, alloc, "steps", Value::from(steps)),
        None => Ok(()),
    }
}

/// The tree of what a session tells, and of how many steps were made, where some were asked for.
fn show_told(alloc: Global, kept: &Kept, steps: Option<u64>) -> Result<Value, AllocError>
    ensures { IfOk result (λ v. view v ≡ told_tree steps kept.now) }
{
    let told = kept.told();
    let mut members = standing_members(alloc, kept, told)?;
    put_fault(alloc, &mut members, told)?;
    put_place(alloc, &mut members, kept.place())?;
    put_steps(alloc, &mut members, steps)?;
    Ok(Value::Object(members))
}

/// What a session tells, and how many steps were made, where some were asked for.
pub(crate) fn told(alloc: Global, kept: &Kept, steps: Option<u64>) -> Result<Bytes, AllocError>
    ensures { IfOk result (λ b. b ≡ line_of (told_tree steps kept.now)) }
{
    let tree = show_told(alloc, kept, steps)?;
    line_of(alloc, &tree)
}
