//! Plays a session in which memory runs out. It reads the session from standard input, lines as they are typed to
//! the interpreter, and writes what the interpreter writes that gives a line 1,000 steps. Where a call of the session is
//! refused its memory, the session must stand as before that call, and the call that is made again goes on. The lines `)SAVE`
//! and `)LOAD` save the workspace and load it again, in memory: calls like the others. The program takes no memory of its
//! own before the first refusal, so `bin/refuse` can refuse each allocation of a session in turn.
#![tactic(auto)]

ghost use Rattle.std.specs.Prelude.{IfOk, ◌≤◌, length};

mod comparing;
mod player;
mod same;
mod shown;
mod unmade;

use crate::comparing::{Difference, compare};
use crate::player::Player;
use crate::shown::Shown;
use crate::unmade::Unmade;
use apl_machine::OutLine;
use std::alloc::{AllocError, Global};
use std::io::{self, Read};
use std::process::ExitCode;

/// What is wrong with a call, most often after it was refused its memory.
#[derive(Clone, Copy)]
enum Wrong {
    /// It is refused for something else.
    Answered,
    /// Memory runs out again, as the call is made again or compared.
    Refused,
    /// The session isn't as before the call.
    Changed(Difference),
    /// The session isn't as it would be had the call not been refused.
    Strayed(Difference),
}

impl From<AllocError> for Wrong {
    fn from(_error: AllocError) -> Wrong {
        Wrong::Refused
    }
}

impl From<Unmade> for Wrong {
    fn from(why: Unmade) -> Wrong {
        match why {
            Unmade::Memory => Wrong::Refused,
            Unmade::Other => Wrong::Answered,
        }
    }
}

impl Wrong {
    /// What is told of it, and the difference that stands behind that.
    fn told(self) -> (&'static str, &'static str) {
        match self {
            Wrong::Answered => ("the call is refused, and not because memory ran out", ""),
            Wrong::Refused => ("memory runs out a second time", ""),
            Wrong::Changed(what) => ("the refused call has changed ", what.as_str()),
            Wrong::Strayed(what) => ("made again, the call gives another ", what.as_str()),
        }
    }
}

/// Why the program ends before the session does.
enum Ended {
    /// The session can't be read, or its output not be written.
    Device,
    /// The session has more bytes than there is room for.
    TooLong,
    /// A refused call was wrong; it has been told.
    Wrong,
}

impl From<io::Error> for Ended {
    fn from(_error: io::Error) -> Ended {
        Ended::Device
    }
}

/// The most bytes of a session.
const ROOM: usize = 16_384;

/// Reads to the end into the buffer, or as far as it has room, and counts the bytes.
fn read_all<S: Read>(input: &mut S, buffer: &mut [u8]) -> io::Result<usize>
    ensures { IfOk result (λ n. n ≤ length buffer.new) }
{
    let mut filled = 0;
    for _ in 0..u64::MAX {
        match input.read(&mut buffer[filled..])? {
            0 => break,
            count => filled += count,
        }
    }
    Ok(filled)
}

/// Writes lines of output. It takes no memory.
fn write_lines<R: Print>(rt: &R, lines: &[OutLine]) -> io::Result<()> {
    for line in lines {
        println!(rt; "{}", Shown(line.text.as_slice()))?;
    }
    Ok(())
}

/// Writes the lines that were written since the last call. It takes no memory.
fn write_output<R: Print>(rt: &R, player: &mut Player<'_>) -> io::Result<()> {
    write_lines(rt, &player.take_output())
}

/// Whether there is output that wasn't taken.
fn has_output(player: &mut Player<'_>) -> bool {
    !player.take_output().is_empty()
}

/// The first difference between two sessions, if there is one.
fn compare_players(one: &Player<'_>, other: &Player<'_>) -> Result<Option<Difference>, AllocError> {
    if one.file() != other.file() {
        return Ok(Some(Difference::File));
    }
    compare(one.machine(), other.machine())
}

/// Looks at a session whose next call was refused its memory, and makes that call again. Beside it stands another to
/// which the same calls were made, and nothing was refused.
fn go_on_beside(player: &mut Player<'_>, other: &mut Player<'_>) -> Result<(), Wrong> {
    if has_output(player) {
        return Err(Wrong::Changed(Difference::Output));
    }
    if let Some(what) = compare_players(player, other)? {
        return Err(Wrong::Changed(what));
    }
    player.play()?;
    other.play()?;
    match compare_players(player, other)? {
        Some(what) => Err(Wrong::Strayed(what)),
        None => Ok(()),
    }
}

/// Looks at a session whose next call was refused its memory, and makes that call again.
fn go_on(alloc: Global, input: &[u8], player: &mut Player<'_>) -> Result<(), Wrong> {
    let mut other = Player::after(alloc, input, player.calls())?;
    go_on_beside(player, &mut other)
}

/// Looks at a session at its end, some call of which was refused its memory, as `go_on` does.
fn compare_end(alloc: Global, input: &[u8], player: &Player<'_>) -> Result<(), Wrong> {
    let other = Player::after(alloc, input, player.calls())?;
    match compare_players(player, &other)? {
        Some(what) => Err(Wrong::Strayed(what)),
        None => Ok(()),
    }
}

/// Tells what is wrong, and where in the session, on standard error.
fn blame<R: Eprint>(rt: &R, player: &Player<'_>, wrong: Wrong) -> Ended {
    let (wrong, what) = wrong.told();
    let _ = eprintln!(rt;
        "apl_refusals: behind line {}, step {}: {}{}",
        player.line(),
        player.steps(),
        wrong,
        what
    );
    Ended::Wrong
}

/// What became of the call that was due.
enum Played {
    /// It was made.
    Made,
    /// It was refused its memory, and made again.
    Again,
    /// There was none.
    Nothing,
}

/// Makes the call that is due, and once again where it is refused its memory.
fn play_once<R: Eprint + AllocGlobal>(
    rt: &R,
    input: &[u8],
    player: &mut Player<'_>,
) -> Result<Played, Ended> {
    match player.play() {
        Ok(true) => Ok(Played::Made),
        Ok(false) => Ok(Played::Nothing),
        Err(Unmade::Memory) => match go_on(rt.alloc(), input, player) {
            Ok(()) => Ok(Played::Again),
            Err(wrong) => Err(blame(rt, player, wrong)),
        },
        Err(Unmade::Other) => Err(blame(rt, player, Wrong::Answered)),
    }
}

/// Plays a session on to its end, and tells whether a call was refused its memory.
fn play_on<R: Print + Eprint + AllocGlobal>(
    rt: &R,
    input: &[u8],
    player: &mut Player<'_>,
) -> Result<bool, Ended> {
    let mut refused = false;
    for _ in 0..u64::MAX {
        match play_once(rt, input, player)? {
            Played::Made => {}
            Played::Again => refused = true,
            Played::Nothing => break,
        }
        write_output(rt, player)?;
    }
    Ok(refused)
}

/// Plays a session to its end, and tells whether a call was refused its memory.
fn play<R: Print + Eprint + AllocGlobal>(rt: &R, input: &[u8]) -> Result<bool, Ended> {
    let mut player = Player::new(rt.alloc(), input);
    let refused = play_on(rt, input, &mut player)?;
    if refused {
        if let Err(wrong) = compare_end(rt.alloc(), input, &player) {
            return Err(blame(rt, &player, wrong));
        }
    }
    Ok(refused)
}

/// Reads a session and plays it, and tells whether a call was refused its memory.
fn run<R: Print + Eprint + AllocGlobal, S: Read>(rt: &R, input: &mut S) -> Result<bool, Ended> {
    let mut buffer = [0u8; ROOM];
    let count = read_all(input, &mut buffer)?;
    if count == ROOM {
        return Err(Ended::TooLong);
    }
    play(rt, &buffer[..count])
}

fn main(rt: HostRuntime) -> ExitCode {
    match run(&rt, &mut rt.stdin()) {
        Ok(false) => ExitCode::SUCCESS,
        Ok(true) => {
            let _ = eprintln!(rt; "refused");
            ExitCode::SUCCESS
        }
        Err(Ended::Wrong) => ExitCode::from(1),
        Err(Ended::TooLong) => {
            let _ = eprintln!(rt; "apl_refusals: a session has at most {} bytes", ROOM - 1);
            ExitCode::from(2)
        }
        Err(Ended::Device) => {
            let _ = eprintln!(rt; "apl_refusals: reading or writing failed");
            ExitCode::from(2)
        }
    }
}
