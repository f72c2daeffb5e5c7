//! Lines that are typed.

use crate::player::Player;
use crate::writing::write_output;

/// Writes the lines that the session has written since the last time.
pub fn write_session(player: &mut Player) {
    let lines = player.session.take_output();
    write_output(&mut player.page, &lines);
}

/// Types a line, and tells whether the session took it.
pub fn feed(player: &mut Player, text: &str) -> bool {
    let line = player.page.bytes_of(text);
    let answer = player.session.feed(&line);
    player.page.kept(answer).is_some()
}

/// Makes at most so many steps, one after another, until nothing runs, and counts them.
fn count_steps(player: &mut Player) -> u64 {
    for made in 0..player.steps {
        if player.session.machine().is_idle() {
            return made;
        }
        let stepped = player.session.advance(1);
        player.page.kept(stepped);
    }
    player.steps
}

/// Abandons what runs, and writes what came of it.
pub fn interrupt(player: &mut Player) {
    let done = player.session.interrupt();
    player.page.done(done);
    write_session(player);
}

/// Types a line and runs it, and abandons it after so many steps; writes what came of it, and its steps.
fn type_line(player: &mut Player, text: &str) {
    if feed(player, text) {
        let made = count_steps(player);
        interrupt(player);
        player.page.count(&made, " steps");
    }
}

/// Types lines one after another, none of which begins a statement.
fn feed_lines(player: &mut Player, lines: &str) {
    for line in lines.split('◊') {
        feed(player, line);
    }
}

/// Defines a function: types its header behind `∇`, its lines, and `∇`.
fn type_function(player: &mut Player, text: &str) {
    let lines = format!(in player.page.alloc; "∇{text}◊∇");
    if let Some(lines) = player.page.kept(lines) {
        feed_lines(player, lines.as_str());
    }
    write_session(player);
}

/// Types a line and doesn't run it.
fn begin_line(player: &mut Player, text: &str) {
    feed(player, text);
    write_session(player);
}

/// Does what a line asks for, if its word is one of these.
pub fn play(player: &mut Player, word: &str, text: &str) -> bool {
    match word {
        ">" => type_line(player, text),
        "begin" => begin_line(player, text),
        "function" => type_function(player, text),
        "interrupt" => interrupt(player),
        _ => return false,
    }
    true
}
