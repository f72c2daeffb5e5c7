//! Lines, bound as they would begin now.
ghost use Rattle.std.specs.Prelude.{◌≡◌, ℕ, List, Ok, map, IfOk};
ghost use Rattle.std.specs.List.{flat_map};
ghost use Rattle.apl_tokens.specs.Tokens.{tokens_of};
ghost use Rattle.apl_translate.specs.Binding.{name_in};
ghost use Rattle.apl_machine_state.specs.Environment.{class_of};
ghost use Rattle.apl_listed.specs.Listings.{bound_now};

use apl_machine::Machine;
use apl_symbols::Class;
use apl_tokens::{Kind, Token};
use apl_translate::{Bound, bind, without_label};
use std::alloc::{AllocError, Global};

/// The classes that the names among these tokens have now.
fn classes_of(alloc: Global, machine: &Machine, tokens: &[Token]) -> Result<Vec<Class>, AllocError>
    ensures { IfOk result (λ classes. classes.items ≡ map (class_of machine.now.world machine.now.contexts) (flat_map (λ t. name_in t.kind) tokens.now)) }
{
    let mut classes = Vec::new(alloc);
    for token in tokens {
        if let Kind::Name(name) = &token.kind {
            classes.push(machine.class_of(name))?;
        }
    }
    Ok(classes)
}

/// The line of these tokens, a text's, whose names have the classes that they have now.
pub fn bound_now(alloc: Global, machine: &Machine, tokens: &[Token]) -> Result<Bound, AllocError>
    requires { (text : List ℕ) × (tokens_of text ≡ Ok tokens.now) }
    ensures { IfOk result (λ bound. bound ≡ bound_now machine.now tokens.now) }
{
    let classes = classes_of(alloc, machine, without_label(tokens))?;
    let bound = bind(alloc, tokens, classes.as_slice())?;
    Ok(bound)
}
