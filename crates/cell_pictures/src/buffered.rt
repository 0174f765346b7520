//! A sink that gathers what is pushed to it.

ghost use Rattle.std.specs.Prelude.{◌≤◌, vec_capacity, vec_len};
ghost use Rattle.cell_pictures.specs.declared.buffered.TheConstants.{ROOM};

use devices::{Failed, Sink};
use std::alloc::{AllocError, Global};

/// How many bytes wait at most.
const ROOM: usize = 65_536;

/// A sink, and the bytes that wait to be pushed to it: they are pushed together where one more push
/// would make them too many, and by `finish`. All its memory is taken by `new`.
#[derive(Drop)]
pub struct BufferedSink<K> {
    sink: K,
    waiting: Vec<u8>,
    pushes: u64,
    ghost room: { ROOM ≤ vec_capacity waiting },
    ghost few: { vec_len waiting ≤ ROOM },
}

impl<K: Sink> BufferedSink<K> {
    ghost use Rattle.std.specs.Prelude.{◌≡◌, ◌≤◌, ◌+◌, IfOk, OnOk, [], ◌++◌, length, vec_capacity, vec_len};
    ghost use Rattle.cell_pictures.specs.Drawn.{IsDrawn, with_waiting};

    pub fn new(alloc: Global, sink: K) -> Result<BufferedSink<K>, AllocError>
    where
        K: Drop,
        ensures sink { IfOk result (λ buffered. buffered.sink ≡ sink) }
        ensures empty { IfOk result (λ buffered. buffered.waiting.items ≡ []) }
        ensures pushes { IfOk result (λ buffered. buffered.pushes ≡ 0) }
    {
        let waiting = Vec::with_capacity(alloc, ROOM)?;
        Ok(BufferedSink {
            sink,
            waiting,
            pushes: 0,
        })
    }

    /// Pushes what waits. Where it is Ok, the sink holds all that was pushed to this one.
    pub fn finish(&mut self) -> Result<(), Failed>
        ensures pushed { IsDrawn (with_waiting (K.known self.old.sink) self.old.waiting.items self.old.pushes) result [] (K.known self.new.sink) }
        ensures empty { OnOk result (self.new.waiting.items ≡ []) }
        ensures pushes { self.new.pushes ≡ self.old.pushes }
    {
        self.sink.push_all(&self.waiting)?;
        self.waiting.clear();
        Ok(())
    }

    /// Adds bytes to those that wait, where there is room for them.
    fn keep(&mut self, bytes: &[u8])
        requires { vec_len self.old.waiting + length bytes.now ≤ ROOM }
        ensures sink { self.new.sink ≡ self.old.sink }
        ensures waiting { self.new.waiting.items ≡ self.old.waiting.items ++ bytes.now }
        ensures pushes { self.new.pushes ≡ self.old.pushes }
    {
        match self.waiting.extend_from_slice(bytes) {
            Ok(()) => {}
            Err(_) => unreachable!(),
        }
    }
}

impl<K: Sink> Sink for BufferedSink<K> {
    ghost use Rattle.cell_pictures.specs.Drawn.{with_waiting};

    ghost known = { λ s. with_waiting (K.known s.sink) s.waiting.items s.pushes };

    fn push_all(&mut self, bytes: &[u8]) -> Result<(), Failed> {
        self.pushes = self.pushes.saturating_add(1);
        if bytes.len() > ROOM - self.waiting.len() {
            self.finish()?;
        }
        if bytes.len() > ROOM {
            return self.sink.push_all(bytes);
        }
        self.keep(bytes);
        Ok(())
    }
}
