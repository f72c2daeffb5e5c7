//! What plays rows, a line at a time.

use crate::page::Page;
use crate::words::{next_word, number};
use crate::{
    arrays, codes, desks, errors, functions, looking, naming, running, stepping, texts, typing,
    views,
};
use apl_machine::Machine;
use apl_session::Session;
use std::alloc::Global;

/// The steps that a line gets where the row doesn't say.
const STEPS: u64 = 1000;

/// A session, and what came of a row since it was written last.
#[derive(Drop)]
pub struct Player {
    pub session: Session,
    /// The most steps of a line that is typed.
    pub steps: u64,
    pub page: Page,
}

/// Calls the crates beneath, if the word is one of theirs.
fn call(page: &mut Page, word: &str, text: &str) -> bool {
    texts::play(page, word, text)
        || functions::play(page, word, text)
        || codes::play(page, word, text)
        || arrays::play(page, word, text)
        || views::play(page, word, text)
        || naming::play(page, word, text)
        || running::play(page, word, text)
        || desks::play(page, word, text)
        || errors::play(page, word, text)
}

/// Types a line, makes steps or looks at the machine; else calls the crates beneath.
fn act(player: &mut Player, word: &str, text: &str) -> bool {
    typing::play(player, word, text)
        || stepping::play(player, word, text)
        || looking::play(&mut player.page, player.session.machine(), word, text)
        || call(&mut player.page, word, text)
}

impl Player {
    /// A clear session, and nothing that is to be written.
    pub fn new(alloc: Global) -> Player {
        Player {
            session: Session::new(alloc, Machine::new(alloc)),
            steps: STEPS,
            page: Page::new(alloc),
        }
    }

    /// Begins a row.
    fn begin_row(&mut self) {
        let alloc = self.page.alloc;
        self.session = Session::new(alloc, Machine::new(alloc));
        self.steps = STEPS;
    }

    /// Does what a line asks for.
    fn follow(&mut self, line: &str) {
        let (word, text) = next_word(line);
        match word {
            "=" => self.begin_row(),
            "steps" => self.steps = number(text),
            _ => {
                if !act(self, word, text) {
                    self.page.unknown();
                }
            }
        }
    }

    /// Plays a line: writes it, and what comes of it.
    pub fn play(&mut self, line: &str) {
        self.page.line(line);
        if !line.is_empty() {
            self.follow(line);
        }
    }
}
