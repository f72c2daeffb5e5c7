//! Calls of the crate of names. A line says what is done one after another, between marks `◊`.
//!
//! | Line | What is done |
//! |---|---|
//! | `names ACT◊..` | `assign NAME N`; `number NAME N`, over what it stands for; `enter LOCAL..`, each a name, `NAME:N` for a label or `NAME:∇` for a function; `bind LOCAL`; `leave`; `leave_with NAME`; `function NAME HEADER`; `erase NAME`; `clear`; and looks: `look NAME`, `global NAME`, `local NAME`, `scope K NAME`, `globals`, `depth` |

use crate::page::Page;
use crate::words::{count, element, next_word};
use crate::writing::{write_class, write_value};
use apl_arrays::Array;
use apl_defn::define;
use apl_names::{Binding, DefinedFunction, Names};
use apl_symbols::Name;

/// Writes what a name stands for.
fn write_binding(page: &mut Page, binding: Option<&Binding>) {
    match binding {
        Some(Binding::Unset) => page.line("unset"),
        Some(Binding::Label(line)) => {
            page.said("label ", line);
            page.end();
        }
        Some(Binding::Value(value)) => write_value(page, Some(value)),
        Some(Binding::Function(function)) => {
            page.said("function of ", &function.definition().len());
            page.line(" lines");
        }
        None => page.line("nothing"),
    }
}

/// Writes what a name stands for in the newest scope that has it, its value and its class.
fn write_looked_up(page: &mut Page, names: &Names, name: &Name) {
    write_binding(page, names.binding(name));
    write_class(page, names.class_of(name));
    page.put(", ");
    write_value(page, names.lookup(name));
}

/// The function of a header.
fn function_of(page: &mut Page, text: &str) -> Option<DefinedFunction> {
    let lines = page.parts(text);
    let answer = define(page.alloc, lines);
    let definition = page.kept(answer)?;
    let answer = DefinedFunction::new(page.alloc, definition);
    page.kept(answer)
}

/// What a local stands for by what stands behind the colon.
fn local_of(page: &mut Page, text: &str) -> Option<Binding> {
    match text {
        "" => Some(Binding::Unset),
        "∇" => Some(Binding::Function(function_of(page, "F")?)),
        line => Some(Binding::Label(line.parse().unwrap_or(0))),
    }
}

/// The local of a word.
fn local_in(page: &mut Page, word: &str) -> Option<(Name, Binding)> {
    let (letters, text) = word.split_once(':').unwrap_or((word, ""));
    let name = page.name(letters)?;
    let local = local_of(page, text)?;
    Some((name, local))
}

/// Makes the local of a word stand in the newest scope.
fn bind(page: &mut Page, names: &mut Names, word: &str) {
    if let Some((name, binding)) = local_in(page, word) {
        page.done(names.bind(&name, binding));
    }
}

/// Adds a scope that has the locals of a text, made last first as those of a call are.
fn enter(page: &mut Page, names: &mut Names, text: &str) {
    page.done(names.open());
    for word in text.rsplit(' ') {
        bind(page, names, word);
    }
}

/// Makes a name a function.
fn make_function(page: &mut Page, names: &mut Names, name: &Name, text: &str) {
    if let Some(function) = function_of(page, text) {
        page.done(names.function(name, function));
    }
}

/// Writes the global names, each with what it is.
fn write_globals(page: &mut Page, names: &Names) {
    let answer = names.globals();
    for (name, is_function) in &page.list(answer) {
        page.named("", name.as_slice());
        page.put(if *is_function {
            "function "
        } else {
            "variable "
        });
    }
    page.end();
}

/// Does with a name what a word asks for.
fn act_on_name(page: &mut Page, names: &mut Names, word: &str, name: &Name, text: &str) {
    match word {
        "assign" => page.done(names.assign(name, Array::number(element(text)))),
        "number" => {
            let is_put = names.put_number(name, element(text));
            page.line(if is_put { "put" } else { "not put" });
        }
        "leave_with" => write_value(page, names.leave_with(name).as_ref()),
        "function" => make_function(page, names, name, text),
        "erase" => {
            names.erase(name);
        }
        "look" => write_looked_up(page, names, name),
        "global" => write_binding(page, names.global(name)),
        "local" => write_binding(page, names.local(name)),
        _ => page.unknown(),
    }
}

/// The same for the name of the first word behind it.
fn act_on_word(page: &mut Page, names: &mut Names, word: &str, text: &str) {
    let (letters, text) = next_word(text);
    if let Some(name) = page.name(letters) {
        act_on_name(page, names, word, &name, text);
    }
}

/// Writes what a scope says of a name: its number, and the name.
fn write_in_scope(page: &mut Page, names: &Names, text: &str) {
    let (number, word) = next_word(text);
    if let Some(name) = page.name(word) {
        write_binding(page, names.in_scope(count(number), &name));
    }
}

/// Does what a word asks for.
fn act(page: &mut Page, names: &mut Names, part: &str) {
    let (word, text) = next_word(part);
    match word {
        "enter" => enter(page, names, text),
        "bind" => bind(page, names, text),
        "leave" => names.leave(),
        "clear" => names.clear(),
        "scope" => write_in_scope(page, names, text),
        "globals" => write_globals(page, names),
        "depth" => page.count(&names.depth(), ""),
        _ => act_on_word(page, names, word, text),
    }
}

/// Does with new names what stands between the marks.
fn write_names(page: &mut Page, text: &str) {
    let mut names = Names::new(page.alloc);
    for part in text.split('◊') {
        act(page, &mut names, part);
    }
}

/// Does what a line asks for, if its word is one of these.
pub fn play(page: &mut Page, word: &str, text: &str) -> bool {
    match word {
        "names" => write_names(page, text),
        _ => return false,
    }
    true
}
