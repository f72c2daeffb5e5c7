//! Plays rows of the language and of its crates, and writes what comes of each. The rows come by standard input: a line
//! begins with a word, which says what is done, and the words behind it say with what. What a program prints is compared
//! with what is stored, so the rows are data, and a row costs nothing to prove.
//!
//! Lines that are typed, in a session of its own for each row, which begins with `=` and a name:
//!
//! | Line | What is done |
//! |---|---|
//! | `= NAME` | a row begins: the session is clear, and a line gets 1,000 steps |
//! | `> TEXT` | the line is typed and run, and interrupted where it still runs; its steps are counted |
//! | `steps N` | the lines that follow get so many steps |
//! | `function HEADER◊LINE◊..` | a function is defined by typed lines |
//! | `begin TEXT`, `step N`, `interrupt` | a line is typed; at most N steps; what runs is abandoned |
//! | `one`, `line N`, `idle N` | steps by a stepper of the machine |
//! | `drive EVENT◊..` | events, each of them `line TEXT`, `steps N` or `interrupt` |
//! | `resume N TEXT`, `answer TEXT` | a line whose stops are answered, by `resume_all` or by hand, with its steps counted |
//! | `frame K`, `value NAME`, `class NAME`, `watched NAME`, `levels`, `globals`, `cached CLASSES TEXT` | looks at the machine |
//! | `save`, `load TEXT` | the file that the workspace is saved as; whether a text is one, or why it is none |
//!
//! What is written stands behind `|`, and behind `!` where it reports a stop. In texts `◊` stands for a line feed, `␍` for a
//! carriage return and `�` for the byte ff, which is no text. Calls of the crates beneath,
//! which no session makes so: [`texts`], [`functions`], [`codes`], [`arrays`], [`views`], [`naming`], [`running`],
//! [`desks`] and [`errors`] say theirs.
#![tactic(auto)]

mod arrays;
mod codes;
mod desks;
mod errors;
mod functions;
mod looking;
mod naming;
mod page;
mod player;
mod running;
mod stepping;
mod texts;
mod typing;
mod views;
mod words;
mod writing;

use crate::player::Player;
use std::io;
use std::process::ExitCode;

/// Why the rows end early.
enum Ended {
    /// They can't be read, or what comes of them not be written.
    Device,
    Memory,
}

impl From<io::Error> for Ended {
    fn from(_error: io::Error) -> Ended {
        Ended::Device
    }
}

/// Plays a line, and writes what comes of it.
fn play_line<R: Print>(rt: &R, player: &mut Player, line: &str) -> Result<(), Ended> {
    player.play(line);
    if player.page.is_short {
        return Err(Ended::Memory);
    }
    print!(rt; "{}", player.page.text.as_str())?;
    player.page.text.clear();
    Ok(())
}

/// Plays the lines in order.
fn play_lines<R: Print>(rt: &R, player: &mut Player, text: &str) -> Result<(), Ended> {
    for line in text.lines() {
        play_line(rt, player, line)?;
    }
    Ok(())
}

/// Plays all rows of a text.
fn play<R: Print + AllocGlobal>(rt: &R, text: &str) -> Result<(), Ended> {
    let mut player = Player::new(rt.alloc());
    play_lines(rt, &mut player, text)
}

fn main(rt: HostRuntime) -> ExitCode {
    let Ok(text) = io::read_to_string(rt.alloc(), rt.stdin()) else {
        return ExitCode::from(2);
    };
    match play(&rt, &text) {
        Ok(()) => ExitCode::SUCCESS,
        Err(Ended::Device) => ExitCode::from(2),
        Err(Ended::Memory) => {
            let _ = println!(rt; "memory");
            ExitCode::from(3)
        }
    }
}
