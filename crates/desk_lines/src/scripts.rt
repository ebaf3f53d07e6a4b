//! Answers the lines of a script one by one.
ghost use Rattle.std.specs.Prelude.{◌≡◌, ◌≤◌, ◌++◌, ℕ, List, Some, length};
ghost use Rattle.desk_lines.specs.Outbox.{HasRoom};
ghost use Rattle.desk_lines.specs.Scripts.{text_kind};
ghost use Rattle.desk_lines.specs.Telling.{with_line_feed};

use super::line_kind::LineKind;
use super::outbox::Outbox;
use super::teller::Teller;
use desk_script::{LONGEST, Script};
use riichi_shape::RowSource;
use std::alloc::AllocError;

impl Teller for Script {
    ghost use Rattle.desk_lines.specs.Scripts.{OpensTable, TellsScript};

    ghost Answer = { List ℕ };

    ghost written = { λ text. text };

    ghost most = { 8192 };

    ghost tells = { λ _ now lines told report. TellsScript now lines told report };

    ghost wants_memory = { OpensTable };

    fn tell<S: RowSource>(
        &mut self,
        _number: u64,
        line: &[u8],
        outbox: &mut Outbox,
        source: &mut S,
    ) -> Result<LineKind, AllocError> {
        match self.answer_with(source, line)? {
            None => Ok(LineKind::NoRecord),
            Some(text) => Ok(put_text(text.as_str().as_bytes(), outbox)),
        }
    }
}

/// Puts an answer into the outbox.
fn put_text(text: &[u8], outbox: &mut Outbox) -> LineKind
    requires room { HasRoom outbox.old }
    requires short { length text.now ≤ LONGEST }
    ensures kind { result ≡ text_kind text.now }
    ensures told { outbox.new.bytes.items
        ≡ outbox.old.bytes.items ++ with_line_feed (Some text.now) }
{
    outbox.put_line(text);
    if text.starts_with(b"refused") {
        LineKind::Refused
    } else {
        LineKind::Answered
    }
}
