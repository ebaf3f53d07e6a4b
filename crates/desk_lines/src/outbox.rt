//! Answer lines on their way to the writer.
ghost use Rattle.std.specs.Prelude.{◌≡◌, ◌+◌, ◌<◌, ◌≤◌, [], ◌∷◌, ◌++◌, length, take, decimal, drop, IsTrue, ◌↔◌, OnOk};
ghost use Rattle.desk_lines.specs.Streams.{Writes};

use super::fault::DeskFault;
use arrayvec::ArrayVec;
use desk_io::Sink;
use desk_json::JsonText;
use riichi_explain::{MOST_OTHER_READING, MOST_READINGS, REASONS_ROOM, ReasonsText};
use riichi_text::{ANSWER_ROOM, AnswerText, MOST_U64, push_number};

/// Room for many answer lines, so that they are written in large pieces.
pub(crate) const ROOM: usize = 65_536;

/// The bytes of an answer's line, as text.
pub(crate) const MOST_TEXT_LINE: usize = ANSWER_ROOM + "\n".len();

/// The bytes of the lines of all readings but the one that scores: of each, and before the last a room that it is made in.
pub(crate) const MOST_OTHERS: usize = (MOST_READINGS - 1) * MOST_OTHER_READING + REASONS_ROOM;

/// The bytes of an answer's line, and of what explains it: of the longest of a win, of its reasons and of its other readings.
pub(crate) const LONGEST_ANSWER: usize = MOST_TEXT_LINE + REASONS_ROOM + MOST_OTHERS;

/// The bytes beside the number of a line.
const MOST_BESIDE_NUMBER: usize = "{\"line\":,".len();

/// The most that stands before an answer: its line's number, and what is beside it.
const LONGEST_FRONT: usize = MOST_U64 + MOST_BESIDE_NUMBER;

/// Answer lines that were not written yet, and room for the text of the next one and for what explains it: to make it
/// anew for each line takes as long as to fill it.
#[derive(Drop)]
pub struct Outbox {
    bytes: ArrayVec<u8, ROOM>,
    /// Room for the text of an answer.
    pub text: AnswerText,
    pub(crate) why: ReasonsText,
    /// Room for an object of JSON.
    pub object: JsonText,
}

impl Outbox {
    ghost use Rattle.desk_lines.specs.Outbox.{HasRoom, HasRoomForLine, HasRoomForText};

    /// Nothing waits to be written.
    pub fn new() -> Outbox
        ensures { result.bytes.items ≡ [] }
    {
        Outbox {
            bytes: ArrayVec::new(),
            text: AnswerText::new(),
            why: ReasonsText::new(),
            object: JsonText::new(),
        }
    }

    /// The answer lines that are here.
    pub fn as_slice(&self) -> &[u8]
        ensures { result.now ≡ self.now.bytes.items }
    {
        self.bytes.as_slice()
    }

    /// Drops all that is here.
    pub fn clear(&mut self)
        ensures { self.new.bytes.items ≡ [] }
    {
        self.bytes.clear();
    }

    /// Whether any answer fits, behind the number of its line.
    pub(crate) fn has_room(&self) -> bool
        ensures { IsTrue result ↔ HasRoomForLine self.now }
    {
        self.bytes.remaining_capacity() >= LONGEST_ANSWER + LONGEST_FRONT
    }

    /// How many bytes are here.
    pub(crate) fn len(&self) -> usize
        ensures { result ≡ length self.now.bytes.items }
    {
        self.bytes.len()
    }

    /// Drops what stands behind the first bytes.
    pub(crate) fn truncate(&mut self, len: usize)
        ensures { self.new.bytes.items ≡ take len self.old.bytes.items }
    {
        self.bytes.truncate(len);
    }

    /// Adds a number between two texts, in front of an answer.
    pub(crate) fn put_number(&mut self, before: &str, number: u64, behind: &str)
        requires room { HasRoomForLine self.old }
        requires short { length before.now + length behind.now ≤ MOST_BESIDE_NUMBER }
        ensures told { self.new.bytes.items
            ≡ self.old.bytes.items ++ (before.now ++ (decimal number ++ behind.now)) }
        ensures room { HasRoom self.new }
    {
        self.text.clear();
        self.text.push_str(before);
        push_number(&mut self.text, number);
        self.text.push_str(behind);
        self.put_piece();
    }

    /// Adds a line with this text.
    pub(crate) fn put_line(&mut self, text: &[u8])
        requires { length self.old.bytes.items + length text.now < ROOM }
        ensures { self.new.bytes.items ≡ self.old.bytes.items ++ (text.now ++ 10 ∷ []) }
    {
        push_line(&mut self.bytes, text);
    }

    /// Adds a line with the text that stands in its room.
    pub fn put_text(&mut self)
        requires { HasRoomForText self.old }
        ensures told { self.new.bytes.items
            ≡ self.old.bytes.items ++ (self.old.text.bytes ++ 10 ∷ []) }
        ensures room { length self.new.bytes.items ≤ length self.old.bytes.items + MOST_TEXT_LINE }
    {
        push_line(&mut self.bytes, self.text.as_str().as_bytes());
    }

    /// Adds a line with the object that stands in its room.
    pub(crate) fn put_object(&mut self)
        requires { HasRoom self.old }
        ensures { self.new.bytes.items
            ≡ self.old.bytes.items ++ (self.old.object.bytes ++ 10 ∷ []) }
    {
        push_line(&mut self.bytes, self.object.as_str().as_bytes());
    }

    /// Adds the object that stands in its room, and no line's end.
    pub fn put_object_piece(&mut self)
        requires { length self.old.bytes.items + length self.old.object.bytes ≤ ROOM }
        ensures { self.new.bytes.items ≡ self.old.bytes.items ++ self.old.object.bytes }
    {
        self.bytes
            .try_extend_from_slice(self.object.as_str().as_bytes())
            .unwrap();
    }

    /// Adds a line with the members of the object that stands in its room: the object without its first byte, a brace.
    pub(crate) fn put_members(&mut self)
        requires room { HasRoom self.old }
        ensures { self.new.bytes.items
            ≡ self.old.bytes.items ++ (drop 1 self.old.object.bytes ++ 10 ∷ []) }
    {
        let object = self.object.as_str().as_bytes();
        push_line(&mut self.bytes, object.get(1..).unwrap_or(&[]));
    }

    /// Adds the text that stands in its room, and no line's end.
    pub fn put_piece(&mut self)
        requires { length self.old.bytes.items + ANSWER_ROOM ≤ ROOM }
        ensures { self.new.bytes.items ≡ self.old.bytes.items ++ self.old.text.bytes }
    {
        self.bytes
            .try_extend_from_slice(self.text.as_str().as_bytes())
            .unwrap();
    }

    /// Adds the lines that stand in the room of explanations, each with its line feed.
    pub(crate) fn put_why(&mut self)
        requires { length self.old.bytes.items + REASONS_ROOM ≤ ROOM }
        ensures told { self.new.bytes.items ≡ self.old.bytes.items ++ self.old.why.bytes }
        ensures room { length self.new.bytes.items ≤ length self.old.bytes.items + REASONS_ROOM }
    {
        self.bytes
            .try_extend_from_slice(self.why.as_str().as_bytes())
            .unwrap();
    }

    /// Writes all that is here. Any failed write ends it.
    pub(crate) fn flush<W: Sink>(&mut self, writer: &mut W) -> Result<(), DeskFault>
        ensures writes { Writes ⟦<W as Sink>⟧ writer.old writer.new result self.old.bytes.items }
        ensures empty { OnOk result (self.new.bytes.items ≡ []) }
    {
        write_all(writer, self.bytes.as_slice())?;
        self.bytes.clear();
        Ok(())
    }
}

fn push_line(bytes: &mut ArrayVec<u8, ROOM>, text: &[u8])
    requires { length bytes.old.items + length text.now < ROOM }
    ensures { bytes.new.items ≡ bytes.old.items ++ (text.now ++ 10 ∷ []) }
{
    bytes.try_extend_from_slice(text).unwrap();
    bytes.push(b'\n');
}

/// Writes all of a text. Any failed write ends it, and one that takes nothing has failed.
pub fn write_all<W: Sink>(writer: &mut W, text: &[u8]) -> Result<(), DeskFault>
    ensures { Writes ⟦<W as Sink>⟧ writer.old writer.new result text.now }
{
    let mut rest = text;
    while !rest.is_empty() {
        match writer.write(rest) {
            Ok(0) | Err(_) => return Err(DeskFault::Write),
            Ok(count) => rest = &rest[count..],
        }
    }
    Ok(())
}
