// A source over a reader and a sink over a writer of the system.
ghost use Rattle.std.specs.Prelude.{◌≡◌, ◌<◌, ◌≤◌, [], ◌∷◌, ◌++◌, length, take, IfOk, OnOk, OnErr, is_ok, if◌then◌else◌};
ghost use Rattle.std.specs.Io.KnownBytes.{IsAtEnd};
ghost use Rattle.outside.specs.Cause.{HasCause, next_count};
ghost use Rattle.outside.specs.Sink.{Puts, PutsFront};
ghost use Rattle.outside.specs.Source.{TakesFront};

use crate::{Failed, Sink, Source};
use history::History;
use std::io::{Read, Write};

/// A source over a reader. Each error of the reader, an interrupted read too, is a fault.
#[derive(Drop)]
pub struct Input<R> {
    reader: R,
    /// How many bytes each take gave.
    gave: History<usize>,
    faults: u64,
}

impl<R: Read> Input<R> {
    /// A source of what the reader gives.
    pub fn new(reader: R) -> Input<R>
        ensures faults { ⟦<Input<R> as Source>⟧.faults result ≡ 0 }
        ensures left { ⟦<Input<R> as Source>⟧.left result ≡ R.remaining reader }
        ensures gave { ⟦<Input<R> as Source>⟧.gave result ≡ [] }
    {
        Input {
            reader,
            gave: History::new(),
            faults: 0,
        }
    }
}

impl<R: Read> Source for Input<R> {
    ghost faults = { λ s. s.faults };

    ghost left = { λ s. R.remaining s.reader };

    ghost gave = { λ s. s.gave.items };

    fn take(&mut self, into: &mut [u8]) -> Result<usize, Failed>
        ensures room { IfOk result (λ n. n ≤ length into.new) }
        ensures bytes { IfOk result
            (λ n. TakesFront (R.remaining self.old.reader)
            (R.remaining self.new.reader) n into.new) }
        ensures end { IfOk result
            (λ n. n ≡ 0 → 0 < length into.new → IsAtEnd (R.remaining self.old.reader)) }
        ensures gave { IfOk result (λ n. self.new.gave.items ≡ self.old.gave.items ++ n ∷ []) }
        ensures gave_nothing { OnErr result (self.new.gave.items ≡ self.old.gave.items) }
        ensures cause { HasCause self.old.faults self.new.faults result }
        ensures faults { self.new.faults
            ≡ (if is_ok result then self.old.faults else next_count self.old.faults) }
    {
        match self.reader.read(into) {
            Ok(count) => {
                self.gave = self.gave.and(&count);
                Ok(count)
            }
            Err(_) => {
                self.faults = self.faults.saturating_add(1);
                Err(Failed)
            }
        }
    }
}

/// A sink over a writer. Each error of the writer, an interrupted write too, is a fault.
#[derive(Drop)]
pub struct Output<W> {
    writer: W,
    faults: u64,
}

impl<W: Write> Output<W> {
    /// A sink that puts into the writer.
    pub fn new(writer: W) -> Output<W>
        ensures faults { ⟦<Output<W> as Sink>⟧.faults result ≡ 0 }
        ensures taken { ⟦<Output<W> as Sink>⟧.taken result ≡ W.contents writer }
    {
        Output { writer, faults: 0 }
    }

    /// The writer.
    pub fn into_inner(self) -> W
        ensures { W.contents result ≡ ⟦<Output<W> as Sink>⟧.taken self }
    {
        self.writer
    }
}

// Writes some of the bytes, of which there are some: how many.
fn write_some<W: Write>(writer: &mut W, bytes: &[u8]) -> Result<usize, Failed>
    ensures some { IfOk result (λ n. 0 < n) }
    ensures room { IfOk result (λ n. n ≤ length bytes.now) }
    ensures ok { IfOk result
        (λ n. Puts (W.contents writer.old) (W.contents writer.new) (take n bytes.now)) }
    ensures err { OnErr result (Puts (W.contents writer.old) (W.contents writer.new) []) }
{
    match writer.write(bytes) {
        Ok(0) => Err(Failed),
        Ok(count) => Ok(count),
        Err(_) => Err(Failed),
    }
}

// Writes all the bytes, and then flushes.
fn write_whole<W: Write>(writer: &mut W, piece: &[u8]) -> Result<(), Failed>
    ensures ok { OnOk result (Puts (W.contents writer.old) (W.contents writer.new) piece.now) }
    ensures err { OnErr result
        (PutsFront (W.contents writer.old) (W.contents writer.new) piece.now) }
{
    let mut done = 0;
    for _round in 0..piece.len() {
        if done == piece.len() {
            break;
        }
        done += write_some(writer, &piece[done..])?;
    }
    match writer.flush() {
        Ok(()) => Ok(()),
        Err(_) => Err(Failed),
    }
}

impl<W: Write> Sink for Output<W> {
    ghost faults = { λ s. s.faults };

    ghost taken = { λ s. W.contents s.writer };

    /// Writes the whole piece and flushes.
    fn put(&mut self, piece: &[u8]) -> Result<(), Failed>
        ensures ok { OnOk result
            (Puts (W.contents self.old.writer) (W.contents self.new.writer) piece.now) }
        ensures err { OnErr result
            (PutsFront (W.contents self.old.writer) (W.contents self.new.writer) piece.now) }
        ensures cause { HasCause self.old.faults self.new.faults result }
        ensures faults { self.new.faults
            ≡ (if is_ok result then self.old.faults else next_count self.old.faults) }
    {
        let result = write_whole(&mut self.writer, piece);
        if result.is_err() {
            self.faults = self.faults.saturating_add(1);
        }
        result
    }
}
