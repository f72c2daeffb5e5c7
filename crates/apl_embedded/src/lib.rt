//! The machine for programs in other languages: a static library with two functions, which `share/apl.h` declares.
#![tactic(auto)]

ghost use Rattle.apl_played.specs.Answering.{Answers};
ghost use Rattle.std.specs.Prelude.{◌≡◌};

use apl_played::play_into;
use std::alloc::Global;

/// How many bytes a call gives.
#[repr(C)]
#[derive(Drop)]
pub struct Sizes {
    pub transcript: usize,
    pub workspace: usize,
}

/// Plays lines on a workspace and lays what comes of it into two buffers, as [`apl_played::play_into`] does, whose number it gives. A
/// C program passes nothing for the allocator: it is that of its own `malloc`.
#[unsafe(no_mangle)]
pub extern "C" fn apl_play(
    alloc: Global,
    workspace: &[u8],
    lines: &[u8],
    steps: u64,
    transcript: &mut [u8],
    after: &mut [u8],
    sizes: &mut Sizes,
) -> u32
    ensures { Answers steps workspace.now lines.now result sizes.new.transcript sizes.new.workspace transcript.old transcript.new after.old after.new }
{
    let answer = play_into(alloc, workspace, lines, steps, transcript, after);
    sizes.transcript = answer.transcript;
    sizes.workspace = answer.workspace;
    u32::from(answer.number)
}

/// The day of the newest changes that CHANGELOG.md tells of, as the number YYYYMMDD.
const VERSION: u32 = 20261201;

/// The version of the library, a day as the number YYYYMMDD: 20261201 is 2026-12-01. A later version has a larger number.
#[unsafe(no_mangle)]
pub extern "C" fn apl_version() -> u32
    ensures { result ≡ VERSION }
{
    VERSION
}
