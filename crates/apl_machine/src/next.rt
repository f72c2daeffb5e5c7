//! The phrase to which the newest line comes.
ghost use Rattle.std.specs.Prelude.{◌≡◌, IfNone, IfSome, None};
ghost use Rattle.apl_arrays.specs.Origins.{origin_number};
ghost use Rattle.apl_machine.specs.inside.Next.{IsNext, next_kind};

use crate::workspace::Workspace;
use apl_arrays::Origin;
use apl_contexts::Contexts;
use apl_frames::Stage;
use apl_names::Names;
use apl_operands::Operands;
use apl_phrases::{Phrase, Scene};

/// The next instruction of the newest line, as a phrase. There is none where nothing is left of the line.
#[inline(always)]
pub(crate) fn next<'names, 'line>(
    contexts: &'line Contexts,
    names: &'names Names,
    io: Origin,
) -> Option<Phrase<'names, 'line>>
    ensures is { IfSome result (IsNext contexts.now names.now (origin_number io)) }
    ensures none { IfNone result (next_kind contexts.now ≡ None) }
{
    let line = contexts.line()?;
    if line.stage() != Stage::Ready {
        return None;
    }
    let instr = line.next();
    Some(Phrase {
        instr,
        sources: instr.arguments.as_slice(),
        operands: Operands {
            constants: line.constants(),
            stack: line.operands(),
        },
        scene: Scene {
            names,
            io,
            standing: contexts.standing(),
        },
    })
}

impl Workspace {
    /// The next instruction of the newest line, as a phrase. There is none where nothing is left of the line.
    #[inline(always)]
    pub(crate) fn next(&self) -> Option<Phrase<'_, '_>>
        ensures is { IfSome result (IsNext self.now.contexts self.now.maps self.now.kept.origin) }
        ensures none { IfNone result (next_kind self.now.contexts ≡ None) }
    {
        next(&self.contexts, &self.names, self.io)
    }
}
