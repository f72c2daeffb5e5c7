//! The parts of a workspace.
ghost use Rattle.std.specs.Prelude.{◌≡◌, option_copied};
ghost use Rattle.apl_arrays.specs.Origins.{origin_number};

use apl_arrays::{Array, Origin};
use apl_charset::Text;
use apl_contexts::Contexts;
use apl_machine_state::Operand;
use apl_names::{DefinedFunction, Names};
use apl_symbols::{Class, Name};
use apl_vectors::Vectors;
use std::marker::Model;

/// What is kept of a line that awaits an answer: the classes with which its names were bound, in the
/// order of the text, the operand stack, its top last, and how many of its phrases are done.
#[derive(Drop)]
pub struct RestPart {
    pub(crate) classes: Vec<Class>,
    pub(crate) done: usize,
    pub(crate) operands: Vec<Operand>,
}

impl Model for RestPart {
    ghost use Rattle.apl_parts.specs.Pieces.{Waiting};

    ghost Value = { Waiting };

    ghost view = { λ r. record { classes = r.classes.items; done = r.done; operands = r.operands.items } };
}

impl RestPart {
    /// These parts. It takes no memory.
    pub fn new(classes: Vec<Class>, done: usize, operands: Vec<Operand>) -> RestPart
        ensures { result ≡ record { classes = classes.items; done = done; operands = operands.items } }
    {
        RestPart {
            classes,
            done,
            operands,
        }
    }

    /// The classes of its user names.
    pub fn classes(&self) -> &[Class]
        ensures { result.now ≡ self.now.classes }
    {
        self.classes.as_slice()
    }

    /// How many of its phrases are done. The one that awaits its answer counts as done.
    pub fn done(&self) -> usize
        ensures { result ≡ self.now.done }
    {
        self.done
    }

    /// The operand stack, its top last.
    pub fn operands(&self) -> &[Operand]
        ensures { result.now ≡ self.now.operands }
    {
        self.operands.as_slice()
    }
}

/// A typed statement, or a text that is executed, that awaits an answer.
#[derive(Drop)]
pub struct StatementPart {
    pub text: Text,
    pub rest: RestPart,
}

/// A standing call.
#[derive(Drop)]
pub struct CallPart {
    pub(crate) function: DefinedFunction,
    pub(crate) at: usize,
    pub(crate) locals: Vec<(Name, Option<Array>)>,
    pub(crate) rest: Option<RestPart>,
}

impl Model for CallPart {
    ghost use Rattle.apl_parts.specs.Pieces.{Standing};

    ghost Value = { Standing };

    ghost view = { λ c. record { definition = c.function; at = c.at; locals = c.locals.items; rest = c.rest } };
}

impl CallPart {
    /// These parts. It takes no memory.
    pub fn new(
        function: DefinedFunction,
        at: usize,
        locals: Vec<(Name, Option<Array>)>,
        rest: Option<RestPart>,
    ) -> CallPart
        ensures { result ≡ record { definition = function; at = at; locals = locals.items; rest = rest } }
    {
        CallPart {
            function,
            at,
            locals,
            rest,
        }
    }

    /// The function, as it stood when the call began.
    pub fn function(&self) -> &DefinedFunction
        ensures { result.now ≡ self.now.definition }
    {
        &self.function
    }

    /// The number of its line.
    pub fn at(&self) -> usize
        ensures { result ≡ self.now.at }
    {
        self.at
    }

    /// Its result, its arguments and its locals, in the order of the header, each with its value, if it
    /// has one.
    pub fn locals(&self) -> &[(Name, Option<Array>)]
        ensures { result.now ≡ self.now.locals }
    {
        self.locals.as_slice()
    }

    /// Its line, where that awaits an answer. Without it the call is suspended before the line.
    pub fn rest(&self) -> Option<&RestPart>
        ensures { option_copied result ≡ self.now.rest }
    {
        self.rest.as_ref()
    }
}

/// A context that waits.
#[derive(Drop)]
pub enum ContextPart {
    /// A typed statement.
    Statement(StatementPart),
    /// A standing call.
    Call(CallPart),
    /// A text that is executed. It stands above the context whose line awaits its value.
    Execute(StatementPart),
}

/// A global function with its stop and trace vectors.
#[derive(Drop)]
pub struct FunctionPart {
    pub(crate) function: DefinedFunction,
    pub(crate) stops: Vec<usize>,
    pub(crate) traces: Vec<usize>,
}

impl Model for FunctionPart {
    ghost use Rattle.apl_parts.specs.Pieces.{Watched};

    ghost Value = { Watched };

    ghost view = { λ f. record { definition = f.function; stops = f.stops.items; traces = f.traces.items } };
}

impl FunctionPart {
    /// These parts. It takes no memory.
    pub fn new(function: DefinedFunction, stops: Vec<usize>, traces: Vec<usize>) -> FunctionPart
        ensures { result ≡ record { definition = function; stops = stops.items; traces = traces.items } }
    {
        FunctionPart {
            function,
            stops,
            traces,
        }
    }

    /// The function.
    pub fn function(&self) -> &DefinedFunction
        ensures { result.now ≡ self.now.definition }
    {
        &self.function
    }

    /// The lines that it stops before.
    pub fn stops(&self) -> &[usize]
        ensures { result.now ≡ self.now.stops }
    {
        self.stops.as_slice()
    }

    /// The lines that are traced.
    pub fn traces(&self) -> &[usize]
        ensures { result.now ≡ self.now.traces }
    {
        self.traces.as_slice()
    }
}

/// A workspace: its global functions and variables, each ascending by name, its contexts, the oldest
/// first, and its index origin.
#[derive(Drop)]
pub struct Parts {
    pub(crate) functions: Vec<FunctionPart>,
    pub(crate) variables: Vec<(Name, Array)>,
    pub(crate) origin: Origin,
    pub(crate) contexts: Vec<ContextPart>,
}

impl Model for Parts {
    ghost use Rattle.apl_arrays.specs.Origins.{origin_number};
    ghost use Rattle.apl_parts.specs.Workspaces.{Pieces, workspace_of};

    ghost Value = { Pieces };

    ghost view = { λ p. workspace_of p.functions.items p.variables.items (origin_number p.origin) p.contexts.items };
}

impl Parts {
    /// These parts. It takes no memory.
    pub fn new(
        functions: Vec<FunctionPart>,
        variables: Vec<(Name, Array)>,
        origin: Origin,
        contexts: Vec<ContextPart>,
    ) -> Parts
        ensures { result ≡ record { functions = functions.items; variables = variables.items; origin = origin_number origin; contexts = contexts.items } }
    {
        Parts {
            functions,
            variables,
            origin,
            contexts,
        }
    }

    /// The global functions, with their vectors.
    pub fn functions(&self) -> &[FunctionPart]
        ensures { result.now ≡ self.now.functions }
    {
        self.functions.as_slice()
    }

    /// The global variables.
    pub fn variables(&self) -> &[(Name, Array)]
        ensures { result.now ≡ self.now.variables }
    {
        self.variables.as_slice()
    }

    /// The index origin.
    pub fn origin(&self) -> Origin
        ensures { origin_number result ≡ self.now.origin }
    {
        self.origin
    }

    /// The contexts, the oldest first.
    pub fn contexts(&self) -> &[ContextPart]
        ensures { result.now ≡ self.now.contexts }
    {
        self.contexts.as_slice()
    }
}

/// What a machine is made of that stands for parts.
#[derive(Drop)]
pub struct Restored {
    pub names: Names,
    pub stops: Vectors,
    pub traces: Vectors,
    pub origin: Origin,
    pub contexts: Contexts,
}
