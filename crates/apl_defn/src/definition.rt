// Functions as they are defined.
ghost use Rattle.std.specs.Prelude.{◌≡◌, ◌≤◌, length, List, Some, None, Ok, IfOk, IfSome, IfNone};
ghost use Rattle.apl_tokens.specs.declared.token.Token.{Token};
ghost use Rattle.apl_tokens.specs.Tokens.{tokens_of};
ghost use Rattle.apl_defn.specs.Definitions.{class_of, line_of, line_at};
ghost use Rattle.apl_defn.specs.Defining.{IsDefined};

use crate::line::tokens_in;
use crate::parts::Header;
use apl_charset::{Ch, Text};
use apl_symbols::{Class, Name};
use apl_tokens::Token;
use std::alloc::{AllocError, Global};
use std::marker::Model;

/// A function: its header, its lines, and its labels. It keeps the texts of the lines alone, each of
/// which has tokens; they are made when somebody asks for them.
pub struct Definition {
    header: Header,
    lines: Vec<Text>,
    labels: Vec<(Name, usize)>,
}

// Written out, so that no crate above proves again what it does.
impl Drop for Definition {
    fn drop(self) {
        let Definition {
            header,
            lines,
            labels,
        } = self;
        drop(header);
        drop(lines);
        drop(labels);
    }
}

impl Model for Definition {
    ghost use Rattle.apl_defn.specs.Definitions.{Definition as Defined};

    ghost Value = { Defined };

    ghost use Rattle.apl_defn.specs.Defining.{IsDefined};

    ghost view = { λ d. record { header = d.header; lines = d.lines.items; labels = d.labels.items } };

    ghost invariant = { λ d. IsDefined (record { header = d.header; lines = d.lines.items; labels = d.labels.items }) };
}

impl Definition {
    /// The function of this header with these lines and labels.
    pub(crate) fn new(header: Header, lines: Vec<Text>, labels: Vec<(Name, usize)>) -> Definition
        requires { IsDefined (record { header = header; lines = lines.items; labels = labels.items }) }
        ensures { result ≡ record { header = header; lines = lines.items; labels = labels.items } }
    {
        Definition {
            header,
            lines,
            labels,
        }
    }

    /// Its header.
    pub fn header(&self) -> &Header
        ensures value { result.now ≡ self.now.header }
        ensures defined { IsDefined self.now }
    {
        &self.header
    }

    /// Its class: a function without arguments is niladic.
    pub fn class(&self) -> Class
        ensures { result ≡ class_of self.now }
    {
        match self.header.right {
            Some(_) => Class::Function,
            None => Class::Niladic,
        }
    }

    /// How many lines it has.
    pub fn len(&self) -> usize
        ensures value { result ≡ length self.now.lines }
        ensures few { result ≤ 999 }
    {
        self.lines.len()
    }

    /// Its lines.
    pub(crate) fn lines(&self) -> &[Text]
        ensures value { result.now ≡ self.now.lines }
        ensures defined { IsDefined self.now }
    {
        self.lines.as_slice()
    }

    /// The text of a line, counted from 1.
    pub fn line(&self, n: usize) -> Option<&[Ch]>
        ensures none { IfNone result (line_at self.now.lines n ≡ None) }
        ensures value { IfSome result (λ text. line_at self.now.lines n ≡ Some text.now) }
        ensures short { IfSome result (λ text. length text.now ≤ 500) }
        ensures line { IfSome result (λ text. line_at self.now.lines n ≡ Some (line_of self.now n)) }
        // It has tokens.
        ensures read { IfSome result (λ text. (tokens : List Token) × (tokens_of (line_of self.now n) ≡ Ok tokens)) }
    {
        match line_at(self.lines(), n) {
            Some(line) => return Some(line.as_slice()),
            None => return None,
        }
    }

    /// The tokens of a line, counted from 1. They are made at each call. The only error is that
    /// memory has run out.
    pub fn tokens(&self, alloc: Global, n: usize) -> Result<Option<Vec<Token>>, AllocError>
        ensures none { IfOk result (λ o. IfNone o (line_at self.now.lines n ≡ None)) }
        ensures line { IfOk result (λ o. IfSome o (λ tokens. line_at self.now.lines n ≡ Some (line_of self.now n))) }
        ensures value { IfOk result (λ o. IfSome o (λ tokens. tokens_of (line_of self.now n) ≡ Ok tokens.items)) }
    {
        let Some(line) = line_at(self.lines(), n) else {
            return Ok(None);
        };
        match tokens_in(alloc, line.as_slice())? {
            Some(tokens) => return Ok(Some(tokens)),
            None => unreachable!(),
        }
    }

    /// Its labels in the order of the lines, each with the number of its line.
    pub fn labels(&self) -> &[(Name, usize)]
        ensures { result.now ≡ self.now.labels }
    {
        self.labels.as_slice()
    }

    /// An equal function.
    pub fn copy(&self, alloc: Global) -> Result<Definition, AllocError>
        ensures { IfOk result (λ copied. copied ≡ self.now) }
    {
        let header = self.header.copy(alloc)?;
        let labels = Vec::from_slice(alloc, self.labels.as_slice())?;
        let lines = copy_lines(alloc, self.lines.as_slice())?;
        Ok(Definition {
            header,
            lines,
            labels,
        })
    }
}

/// The line of that number, from 1.
fn line_at(lines: &[Text], n: usize) -> Option<&Text>
    ensures none { IfNone result (line_at lines.now n ≡ None) }
    ensures value { IfSome result (λ l. line_at lines.now n ≡ Some l.now) }
{
    if n == 0 {
        return None;
    }
    lines.get(n - 1)
}

/// The same lines again. It is an error where memory runs out.
pub fn copy_lines(alloc: Global, lines: &[Text]) -> Result<Vec<Text>, AllocError>
    ensures { IfOk result (λ v. v.items ≡ lines.now) }
{
    let mut copied = Vec::with_capacity(alloc, lines.len())?;
    for line in lines {
        copied.push(line.copy(alloc)?)?;
    }
    Ok(copied)
}
