//! Line numbers by the names of functions.
ghost use Rattle.std.specs.Prelude.{◌≡◌, ◌≤◌, [], length, IsOk, OnErr, OnOk};
ghost use Rattle.apl_vectors.specs.Vectors.{has_line, vector_of, with_vector, without_vector};

use apl_symbols::Name;
use std::alloc::{AllocError, Global};
use std::collections::BTreeMap;
use std::marker::Model;

/// The most lines that a vector has: those of a function.
pub const MOST_LINES: usize = 999;

/// The stop or trace vectors of functions. Contracts see a list of names, which ascend, with their
/// line numbers. The vector of a function that isn't listed is empty.
pub struct Vectors {
    alloc: Global,
    vectors: BTreeMap<Name, Vec<usize>>,
}

// Written out, so that no crate above proves again what it does.
impl Drop for Vectors {
    fn drop(self) {
        let Vectors { alloc: _, vectors } = self;
        drop(vectors);
    }
}

impl Model for Vectors {
    ghost use Rattle.std.specs.Prelude.{◌≤◌, All, length, map};
    ghost use Rattle.apl_vectors.specs.Vectors.{Vectors};

    ghost Value = { Vectors };

    ghost view = { λ v. map (λ e. (e.0, e.1.items)) v.vectors.entries };

    ghost invariant = { λ v. All (λ e. length e.1.items ≤ 999) v.vectors.entries };
}

impl Vectors {
    /// No vector but empty ones. It takes no memory.
    pub fn new(alloc: Global) -> Vectors
        ensures { result ≡ [] }
    {
        Vectors {
            alloc,
            vectors: BTreeMap::new(alloc),
        }
    }

    /// The vector of a function.
    pub fn get(&self, name: &Name) -> &[usize]
        ensures value { result.now ≡ vector_of name.now self.now }
        ensures few { length result.now ≤ MOST_LINES }
    {
        match self.vectors.get(name) {
            Some(lines) => lines.as_slice(),
            None => &[],
        }
    }

    /// Whether a line is in the vector of a function.
    #[inline(always)]
    pub fn has(&self, name: &Name, line: usize) -> bool
        ensures { result ≡ has_line name.now line self.now }
    {
        !self.vectors.is_empty() && self.lists(name, line)
    }

    /// The same, where some vector isn't empty.
    #[inline(never)]
    fn lists(&self, name: &Name, line: usize) -> bool
        ensures { result ≡ has_line name.now line self.now }
    {
        self.get(name).contains(&line)
    }

    /// Gives a function a vector, of at most 999 lines. An empty one takes away what it had, and needs
    /// no memory. The error is that memory has run out, and then nothing has changed.
    pub fn set(&mut self, name: &Name, lines: Vec<usize>) -> Result<(), AllocError>
        requires { length lines.items ≤ MOST_LINES }
        ensures ok { OnOk result (self.new ≡ with_vector name.now lines.items self.old) }
        ensures err { OnErr result (self.new ≡ self.old) }
        ensures empty { lines.items ≡ [] → IsOk result }
    {
        if lines.is_empty() {
            self.remove(name);
            return Ok(());
        }
        match self.vectors.insert(*name, lines) {
            Ok(_) => Ok(()),
            Err(_) => Err(AllocError),
        }
    }

    /// Empties the vector of a function. It takes no memory.
    pub fn remove(&mut self, name: &Name)
        ensures { self.new ≡ without_vector name.now self.old }
    {
        self.vectors.remove(name);
    }

    /// Empties all of them. It takes no memory.
    pub fn clear(&mut self)
        ensures { self.new ≡ [] }
    {
        self.vectors = BTreeMap::new(self.alloc);
    }
}
