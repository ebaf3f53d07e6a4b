//! A script, line by line.
ghost use Rattle.std.specs.Prelude.{◌≡◌, [], IfOk, OnErr};
ghost use Rattle.desk_script.specs.Asked.{asked_by, opens};
ghost use Rattle.desk_script.specs.Replay.{Tells, AnswersLine};
ghost use Rattle.desk_script.specs.Texts.{bytes_of};

use crate::asking::ask;
use crate::line_request::LineRequest;
use crate::names::Names;
use crate::text::{LONGEST, told_text};
use crate::told::Told;
use arrayvec::ArrayString;
use desk_core::{CoreFault, DeskCore};
use riichi_shape::{FreshRows, RowSource};
use std::alloc::{AllocError, Global};
use std::marker::Model;

/// How many tables a script's desk has.
const TABLES: u32 = 64;

/// A script: the names of the open tables, and the desk that they are at.
#[derive(Drop)]
pub struct Script {
    names: Names,
    core: DeskCore,
}

impl Model for Script {
    ghost use Rattle.desk_script.specs.Replay.{ScriptState};

    ghost Value = { ScriptState };

    ghost view = { λ s. record { names = s.names; lanes = s.core } };
}

impl Script {
    /// A script of which no line was read yet. It keeps the memory for 64 tables.
    pub fn new(alloc: Global) -> Result<Script, AllocError>
        ensures { IfOk result (λ script. Tells script [] []) }
    {
        match DeskCore::new(alloc, TABLES) {
            Ok(core) => Ok(Script {
                names: Names::new(alloc),
                core,
            }),
            Err(CoreFault::Memory) => Err(AllocError),
            // The limit of a desk is the number of tables that a script has.
            Err(CoreFault::Tables) => unreachable!(),
        }
    }

    /// The line that the next line is answered with, without the line's end; none where it has no answer. A
    /// submission or a withdrawal that finds no memory is answered so; only where a new table's name finds none there is
    /// no answer, and the script is as before.
    pub fn answer(&mut self, line: &[u8]) -> Result<Option<ArrayString<LONGEST>>, AllocError>
        ensures told { IfOk result (λ text. AnswersLine self.old self.new line.now
            (bytes_of text)) }
        ensures err { OnErr result ((self.new ≡ self.old)
            × (asked_by self.old.names line.now ≡ opens self.old.names)) }
    {
        self.answer_with(&mut FreshRows, line)
    }

    /// The same, where a shape is judged by the rows of a source.
    pub fn answer_with<S: RowSource>(
        &mut self,
        source: &mut S,
        line: &[u8],
    ) -> Result<Option<ArrayString<LONGEST>>, AllocError>
        ensures told { IfOk result (λ text. AnswersLine self.old self.new line.now
            (bytes_of text)) }
        ensures err { OnErr result ((self.new ≡ self.old)
            × (asked_by self.old.names line.now ≡ opens self.old.names)) }
    {
        match ask(&mut self.names, line, source)? {
            LineRequest::Told(told) => Ok(told_text(&told)),
            LineRequest::Event(event) => {
                let told = Told::Replied(self.core.step(event));
                Ok(told_text(&told))
            }
        }
    }
}
