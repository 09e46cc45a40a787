//! Answer lines that were not written yet.

ghost use Rattle.std.specs.Prelude.{◌++◌, ◌+◌, ◌-◌, ◌<◌, ◌^◌, ◌≡◌, [], IfErr, IfOk, length, OnErr};
ghost use Rattle.std.specs.Prelude.{OnOk, take, ℕ};
ghost use Rattle.std.specs.Io.KnownBytes.{Appends};
ghost use Rattle.psci_script.specs.declared.fault.ReplayFault.TheVariants.{Write};
ghost use Rattle.psci_script.specs.Device.{GaveUp};
ghost use Rattle.psci_script.specs.Text.{answer_line};

use crate::answer_line::{LONGEST_ANSWER, write_answer};
use crate::device::Sink;
use crate::fault::ReplayFault;
use crate::transfer::write_all;
use psci_world_spec::Said;
use std::alloc::{AllocError, Global};
use std::marker::Model;

/// Room for the answers that wait, to begin with: those to a block of short lines.
const FIRST_ROOM: usize = 65536;

/// The answers to the events so far, of which the last may wait to be written.
#[derive(Drop)]
pub struct Answers {
    /// Where the next answer line is written.
    room: [u8; LONGEST_ANSWER],
    waiting: Vec<u8>,
    events: u64,
}

impl Model for Answers {
    ghost use Rattle.psci_script.specs.EventText.{Answered};

    ghost Value = { Answered };

    ghost view = { λ a. record { waiting = a.waiting.items; events = a.events } };
}

impl Answers {
    /// No answers.
    pub fn new(alloc: Global) -> Result<Answers, AllocError>
        ensures { IfOk result (λ answers. answers ≡ record { waiting = []; events = 0 }) }
    {
        Ok(Answers {
            room: [0; LONGEST_ANSWER],
            waiting: Vec::with_capacity(alloc, FIRST_ROOM)?,
            events: 0,
        })
    }

    /// How many events were answered.
    pub fn events(&self) -> u64
        ensures { result ≡ self.now.events }
    {
        self.events
    }

    /// Adds the answer to the next event, or changes nothing.
    pub fn add(&mut self, said: &Said) -> Result<(), AllocError>
        requires { self.old.events < 2 ^ 64 - 1 }
        ensures ok { OnOk result (self.new ≡ record {
          waiting = self.old.waiting ++ answer_line (self.old.events + 1) said.now;
          events = self.old.events + 1;
        }) }
        ensures err { OnErr result (self.new ≡ self.old) }
    {
        let start = write_answer(self.events + 1, said, &mut self.room);
        let room = &self.room[..];
        self.waiting.extend_from_slice(&room[start..])?;
        self.events += 1;
        Ok(())
    }

    /// Adds the text of the next event, or changes nothing.
    pub fn add_text(&mut self, text: &[u8]) -> Result<(), AllocError>
        requires { self.old.events < 2 ^ 64 - 1 }
        ensures ok { OnOk result (self.new ≡ record {
          waiting = self.old.waiting ++ text.now;
          events = self.old.events + 1;
        }) }
        ensures err { OnErr result (self.new ≡ self.old) }
    {
        self.waiting.extend_from_slice(text)?;
        self.events += 1;
        Ok(())
    }

    /// Adds a text that is of no event, or changes nothing.
    pub fn put(&mut self, text: &[u8]) -> Result<(), AllocError>
        ensures ok { OnOk result (self.new ≡ record self.old {
          waiting = self.old.waiting ++ text.now;
        }) }
        ensures err { OnErr result (self.new ≡ self.old) }
    {
        self.waiting.extend_from_slice(text)
    }

    /// Writes the lines that wait, all of them or a front part.
    pub fn write_to<K: Sink>(&mut self, sink: &mut K) -> Result<(), ReplayFault>
        ensures written { OnOk result (Appends (K.taken sink.old)
            (K.taken sink.new) self.old.waiting) }
        ensures none_wait { OnOk result (self.new ≡ record self.old { waiting = [] }) }
        ensures sound { OnOk result (K.failed sink.new ≡ K.failed sink.old) }
        ensures gave_up { IfErr result (λ fault. (fault ≡ Write)
            × GaveUp (K.failed sink.new) (K.interruptions sink.new)) }
        ensures front { OnErr result ((n : ℕ)
            × Appends (K.taken sink.old) (K.taken sink.new) (take n self.old.waiting)) }
    {
        write_all(sink, self.waiting.as_slice())?;
        self.waiting.clear();
        Ok(())
    }
}
