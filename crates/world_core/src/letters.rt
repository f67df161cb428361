// The letters of a run, as bytes.

ghost use Rattle.std.specs.Prelude.{◌≡◌, ◌<◌, ◌≤◌, ◌++◌, ◌∷◌, [], true, length, slice_get, Some, OnOk};
ghost use Rattle.frame_codec.specs.Spelling.{MeetsRules, pad_of};
ghost use Rattle.world_core.specs.Letters.{IsLetterOf, frame_of};
ghost use Rattle.world_core.specs.inner.Notes.{Lies, bytes_in, letter_in, note_of};

use crate::letter::{Content, Letter, Note, To};
use frame_codec::{Back, Frame, Leg, encode};
use pulse_base::{Memory, PadBytes};
use std::alloc::Global;
use std::marker::Model;

/// The bytes of the longest frame.
pub const FRAME_MAX: usize = 286;

/// The most letters of a run: their numbers fit 32 bits.
pub const LETTERS_MAX: usize = 4_000_000_000;

/// All letters of a run, in the order in which they were sent. The list only grows. Each letter takes the bytes of its
/// frame and a note of fixed size, so reading one costs the same however many there are. Contracts see the letters, and
/// whether there is room for one more, of any size.
#[derive(Drop)]
pub struct Letters {
    notes: Vec<Note>,
    bytes: Vec<u8>,
}

impl Model for Letters {
    ghost use Rattle.std.specs.Prelude.{◌≤◌, length};
    ghost use Rattle.world_core.specs.Letters.{LettersState};
    ghost use Rattle.world_core.specs.inner.Notes.{letters_view, AreNotes};

    ghost Value = { LettersState };

    ghost view = { letters_view };

    ghost invariant = { λ l. AreNotes l.bytes.items l.notes.items × (length l.notes.items ≤ 4000000000) };
}

// The frame of a content.
pub fn frame_of(content: &Content) -> Frame
    ensures { result ≡ frame_of content.now }
{
    match content {
        Content::Leg(leg) => Frame::Leg(*leg),
        Content::Back(back) => Frame::Back(*back),
    }
}

// The note of a content whose bytes lie there.
fn note_of(to: To, content: &Content, start: usize, pad_start: usize, end: usize) -> Note
    ensures { result ≡ note_of to content.now start pad_start end }
{
    let (client, request, leg, program, left, cur, ending) = match content {
        Content::Leg(l) => (l.client, l.request, l.leg, l.program, l.left, l.cur, None),
        Content::Back(b) => (
            b.client,
            b.request,
            b.leg,
            b.program,
            b.left,
            b.cur,
            Some(b.ending),
        ),
    };
    Note {
        to,
        client,
        request,
        leg,
        program,
        left,
        cur,
        ending,
        start,
        pad_start,
        end,
    }
}

// How long a content's pad is.
fn pad_len(content: &Content) -> usize
    ensures { result ≡ length (pad_of (frame_of content.now)) }
{
    match content {
        Content::Leg(leg) => leg.pad.bytes().len(),
        Content::Back(back) => back.pad.bytes().len(),
    }
}

// The bytes of a note's frame.
fn bytes_of<'a>(bytes: &'a [u8], note: &Note) -> &'a [u8]
    requires { Lies bytes.now note.now }
    ensures { result.now ≡ bytes_in bytes.now note.now }
{
    &bytes[note.start..note.end]
}

// The letter of a note.
fn letter_of(bytes: &[u8], note: &Note) -> Letter
    requires { Lies bytes.now note.now }
    ensures { result ≡ letter_in bytes.now note.now }
{
    let pad = PadBytes::of(&bytes[note.pad_start..note.end]);
    let content = match note.ending {
        None => Content::Leg(Leg {
            client: note.client,
            request: note.request,
            leg: note.leg,
            program: note.program,
            left: note.left,
            cur: note.cur,
            pad,
        }),
        Some(ending) => Content::Back(Back {
            client: note.client,
            request: note.request,
            leg: note.leg,
            program: note.program,
            left: note.left,
            cur: note.cur,
            pad,
            ending,
        }),
    };
    Letter {
        to: note.to,
        content,
    }
}

impl Letters {
    /// No letters, which takes no memory.
    pub fn new(alloc: Global) -> Letters
        ensures { result.sent ≡ [] }
    {
        Letters {
            notes: Vec::new(alloc),
            bytes: Vec::new(alloc),
        }
    }

    /// How many letters were sent.
    pub fn len(&self) -> usize
        ensures len { result ≡ length self.now.sent }
        ensures few { result ≤ 4000000000 }
    {
        self.notes.len()
    }

    /// Makes room for one more letter, where fewer than the most were sent.
    pub fn make_room(&mut self) -> Result<(), Memory>
        ensures sent { self.new.sent ≡ self.old.sent }
        ensures room { OnOk result (self.new.room ≡ true) }
        ensures few { OnOk result (length self.new.sent < 4000000000) }
    {
        if self.notes.len() >= LETTERS_MAX {
            return Err(Memory);
        }
        self.bytes.reserve(FRAME_MAX)?;
        self.notes.reserve(1)?;
        Ok(())
    }

    /// Appends a letter for which there is room.
    pub fn push(&mut self, to: To, content: &Content)
        requires room { self.old.room ≡ true }
        requires few { length self.old.sent < 4000000000 }
        requires rules { MeetsRules (frame_of content.now) }
        ensures { self.new.sent ≡ self.old.sent ++ record { to = to; content = content.now } ∷ [] }
    {
        let start = self.bytes.len();
        let Ok(()) = self
            .bytes
            .extend_from_slice(encode(&frame_of(content)).as_slice())
        else {
            unreachable!()
        };
        let end = self.bytes.len();
        let note = note_of(to, content, start, end - pad_len(content), end);
        let Ok(()) = self.notes.push(note) else {
            unreachable!()
        };
    }

    /// The bytes of the frame of a letter.
    pub fn bytes(&self, k: usize) -> &[u8]
        requires { k < length self.now.sent }
        ensures { IsLetterOf self.now.sent k result.now }
    {
        bytes_of(self.bytes.as_slice(), &self.notes[k])
    }

    /// A letter, whose frame meets the rules of its fields.
    pub fn get(&self, k: usize) -> Letter
        requires { k < length self.now.sent }
        ensures letter { slice_get self.now.sent k ≡ Some result }
        ensures rules { MeetsRules (frame_of result.content) }
    {
        letter_of(self.bytes.as_slice(), &self.notes[k])
    }
}
