//! Text on its way to a sink, gathered so that the sink gets it in large pieces.
ghost use Rattle.std.specs.Prelude.{◌≡◌, ℕ, ◌+◌, ◌<◌, ◌≤◌, List, [], ◌∷◌, ◌++◌, length, map, vec_capacity, IfOk, OnOk, OnErr};
ghost use Rattle.std.specs.Fmt.{decimal};
ghost use Rattle.svga_io.specs.Growing.{Grows, GrowsByPrefix};
ghost use Rattle.svga_text.specs.Fields.{field_text};
ghost use Rattle.svga_text.specs.Lines.{line, spaced};
ghost use Rattle.svga_text.specs.Keys.{key_text};
ghost use Rattle.svga_text.specs.Passing.{PassesOn};
ghost use Rattle.svga_text.specs.Pictures.{pixels_text};

use crate::field::Field;
use crate::hexadecimal::{digits_of_byte, digits_of_colour};
use itoa::Buffer;
use std::alloc::{AllocError, Global};
use std::marker::Model;
use svga_cmd::PageKey;
use svga_cmd::constants::COLOURS;
use svga_io::{Sink, WriteFault, write_all};

/// How many bytes are gathered at most.
const ROOM: usize = 8192;

/// The text that has been written and hasn't arrived at its sink.
#[derive(Drop)]
pub struct Pending {
    bytes: Vec<u8>,
}

impl Model for Pending {
    ghost Value = { List ℕ };

    ghost view = { λ pending. pending.bytes.items };

    ghost invariant = { λ pending. 8192 ≤ vec_capacity pending.bytes };
}

impl Pending {
    /// Nothing yet, with room for the largest piece.
    pub fn new(alloc: Global) -> Result<Pending, AllocError>
        ensures { IfOk result (λ pending. pending ≡ []) }
    {
        Ok(Pending {
            bytes: Vec::with_capacity(alloc, ROOM)?,
        })
    }

    /// Forgets what is pending.
    pub fn clear(&mut self)
        ensures { self.new ≡ [] }
    {
        self.bytes.clear();
    }

    /// Sends all that is pending.
    pub fn send<K: Sink>(&mut self, sink: &mut K) -> Result<(), WriteFault>
        ensures sent { OnOk result (Grows K.held K.faults sink.old sink.new self.old) }
        ensures empty { OnOk result (self.new ≡ []) }
        ensures fault { OnErr result (GrowsByPrefix K.held K.faults sink.old sink.new self.old) }
    {
        write_all(sink, &self.bytes)?;
        self.bytes.clear();
        Ok(())
    }

    /// Writes these bytes. Where there is no room for them, what is pending goes first.
    pub fn text<K: Sink>(&mut self, sink: &mut K, bytes: &[u8]) -> Result<(), WriteFault>
        ensures { PassesOn K.held K.faults sink.old sink.new self.old self.new bytes.now result }
    {
        if self.bytes.len() + bytes.len() <= ROOM {
            self.keep(bytes);
            return Ok(());
        }
        self.send(sink)?;
        if bytes.len() <= ROOM {
            self.keep(bytes);
            return Ok(());
        }
        write_all(sink, bytes)
    }

    fn keep(&mut self, bytes: &[u8])
        requires { length self.old + length bytes.now ≤ 8192 }
        ensures { self.new ≡ self.old ++ bytes.now }
    {
        self.bytes.extend_from_slice(bytes).unwrap();
    }

    /// Writes a number behind a space.
    pub fn number<K: Sink>(&mut self, sink: &mut K, number: u64) -> Result<(), WriteFault>
        ensures { PassesOn K.held K.faults sink.old sink.new self.old self.new (32 ∷ decimal number) result }
    {
        self.word(sink, Buffer::new().format(number).as_bytes())
    }

    /// Writes fields, each behind a space.
    pub fn fields<K: Sink>(&mut self, sink: &mut K, fields: &[Field]) -> Result<(), WriteFault>
        ensures { PassesOn K.held K.faults sink.old sink.new self.old self.new
            (spaced (map field_text fields.now)) result }
    {
        for field in fields {
            self.field(sink, *field)?;
        }
        Ok(())
    }

    fn field<K: Sink>(&mut self, sink: &mut K, field: Field) -> Result<(), WriteFault>
        ensures { PassesOn K.held K.faults sink.old sink.new self.old self.new
            (32 ∷ field_text field) result }
    {
        match field {
            Field::Unsigned(n) => self.word(sink, Buffer::new().format(n).as_bytes()),
            Field::Signed(z) => self.word(sink, Buffer::new().format(z).as_bytes()),
            Field::Name(name) => self.word(sink, name.as_bytes()),
            Field::Byte(byte) => self.word(sink, &digits_of_byte(byte)),
            Field::Key(key) => self.key(sink, key),
        }
    }

    fn key<K: Sink>(&mut self, sink: &mut K, key: PageKey) -> Result<(), WriteFault>
        ensures { PassesOn K.held K.faults sink.old sink.new self.old self.new
            (32 ∷ key_text key) result }
    {
        match key {
            PageKey::Guest(number) => self.lettered(sink, b" p", number),
            PageKey::Frame(number) => self.lettered(sink, b" f", number),
        }
    }

    fn lettered<K: Sink>(
        &mut self,
        sink: &mut K,
        letter: &[u8],
        number: u32,
    ) -> Result<(), WriteFault>
        ensures { PassesOn K.held K.faults sink.old sink.new self.old self.new
            (letter.now ++ decimal number) result }
    {
        self.text(sink, letter)?;
        self.text(sink, Buffer::new().format(number).as_bytes())
    }

    /// Writes pixels of one colour behind a space.
    pub fn pixels<K: Sink>(
        &mut self,
        sink: &mut K,
        count: usize,
        colour: u32,
    ) -> Result<(), WriteFault>
        requires { colour < COLOURS }
        ensures { PassesOn K.held K.faults sink.old sink.new self.old self.new
            (32 ∷ pixels_text (count, colour)) result }
    {
        self.word(sink, Buffer::new().format(count).as_bytes())?;
        self.text(sink, b"*")?;
        self.text(sink, &digits_of_colour(colour))
    }

    /// Writes a whole line, that begins so, with these words behind.
    pub fn line<K: Sink>(
        &mut self,
        sink: &mut K,
        begin: &str,
        fields: &[Field],
    ) -> Result<(), WriteFault>
        ensures { PassesOn K.held K.faults sink.old sink.new self.old self.new
            (line begin.now (map field_text fields.now)) result }
    {
        self.text(sink, begin.as_bytes())?;
        self.fields(sink, fields)?;
        self.text(sink, b"\n")
    }

    fn word<K: Sink>(&mut self, sink: &mut K, word: &[u8]) -> Result<(), WriteFault>
        ensures { PassesOn K.held K.faults sink.old sink.new self.old self.new (32 ∷ word.now) result }
    {
        self.text(sink, b" ")?;
        self.text(sink, word)
    }
}
