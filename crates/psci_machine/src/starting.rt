//! The power controller is asked: wake-ups, resets, and messages that it gets.

ghost use Rattle.std.specs.Prelude.{◌++◌, ◌<◌, ◌==◌, ◌≡◌, IfOk, if◌then◌else◌, is_some, IsOk};
ghost use Rattle.std.specs.Prelude.{length, List, nat_lt, OnOk, replicate, slice_get, slice_set};
ghost use Rattle.std.specs.Prelude.{Some, unwrap_or, vec_capacity, vec_len, ℕ};
ghost use Rattle.psci_ctl.specs.Seen.{seen};
ghost use Rattle.psci_ctl.specs.psci_ctl_spec.History.{IsOfBoard};
ghost use Rattle.psci_ctl.specs.psci_ctl_spec.Replies.{message_effect, reply};
ghost use Rattle.psci_ctl.specs.psci_ctl_spec.declared.call.CtlCall.TheVariants as calls;
ghost use Rattle.psci_ctl.specs.psci_ctl_spec.declared.kick.Kick.TheVariants as kicks;
ghost use Rattle.psci_ctl.specs.psci_ctl_spec.declared.reply.CtlReply.TheVariants as replies;
ghost use Rattle.psci_fw.specs.psci_board.Board.{cores};
ghost use Rattle.psci_fw.specs.psci_fw_spec.Effects.{listed};
ghost use Rattle.psci_fw.specs.psci_messages.Message.{AckValue, MessageValue};
ghost use Rattle.psci_fw.specs.psci_messages.declared.kind.Kind.TheVariants as kinds;
ghost use Rattle.psci_machine.specs.Seen.{if_there, IsNext, machine_board, place_in, place_kicked};
ghost use Rattle.psci_world_spec.specs.Legal.{ack_in, first_place, if_stopped, on_board};
ghost use Rattle.psci_world_spec.specs.Legal.{place_after, place_of_effect, said_by, sent_in};
ghost use Rattle.psci_world_spec.specs.declared.event.Event.TheVariants as events;
ghost use Rattle.psci_world_spec.specs.declared.place.Place.TheVariants.{Started, Stopped};
ghost use Rattle.psci_world_spec.specs.declared.said.Said.TheVariants as says;

use crate::machine::Machine;
use psci_ctl::{Ack, Core, Delivery, Kick, Kind, Memory, Message};
use psci_fw::Act;
use psci_world_spec::{Place, Said};
use std::alloc::Global;

impl Machine {
    /// A core has a wake-up event: if it is stopped, the power controller may start it.
    pub(crate) fn wake(&mut self, number: u64) -> Said
        ensures said { (n : ℕ) → result ≡ on_board (machine_board self.old) number
            (if_stopped (place_in self.old.places number) (said_by n
            (reply (machine_board self.old) (seen self.old.controller)
            (calls.Wake (record { number = number })
            ((seen self.old.controller).starts number))))) }
        ensures next { (messages : List MessageValue) (made : List AckValue)
            → IsNext messages made self.old (events.Wake number) result self.new }
    {
        let Some(core) = self.core(number) else {
            return Said::Absent;
        };
        let Place::Stopped = self.place(core) else {
            return Said::Ignored;
        };
        let halted = self.controller.starts(core);
        let kick = self.controller.wake(core, halted);
        self.note_kick(core, kick)
    }

    /// A core is reset by itself: the power controller may start it.
    pub(crate) fn reset(&mut self, number: u64) -> Said
        ensures said { (n : ℕ) → result ≡ on_board (machine_board self.old) number (said_by n
            (reply (machine_board self.old) (seen self.old.controller)
            (calls.Reset (record { number = number })))) }
        ensures next { (messages : List MessageValue) (made : List AckValue)
            → IsNext messages made self.old (events.Reset number) result self.new }
    {
        let Some(core) = self.core(number) else {
            return Said::Absent;
        };
        let kick = self.controller.reset(core);
        self.note_kick(core, kick)
    }

    /// The power controller gets the message of this number, if there is one, after so many
    /// acknowledgements.
    pub(crate) fn deliver(&mut self, messages: &[Message], number: u64, made: usize) -> Said
        requires { (k : ℕ) (m : MessageValue) → slice_get messages.now k ≡ Some m
            → IsOfBoard (machine_board self.old) m }
        ensures said { result ≡ if_there (slice_get messages.now number) (λ m. said_by made
            (reply (machine_board self.old) (seen self.old.controller) (calls.Deliver m))) }
        ensures next { (acks : List AckValue)
            → IsNext messages.now acks self.old (events.Deliver number) result self.new }
    {
        let Ok(at) = usize::try_from(number) else {
            return Said::Absent;
        };
        let Some(message) = messages.get(at) else {
            return Said::Absent;
        };
        self.carry(message, made)
    }

    /// The power controller gets this message, after so many acknowledgements.
    fn carry(&mut self, message: &Message, made: usize) -> Said
        requires { IsOfBoard (machine_board self.old) message.now }
        ensures said { result ≡ said_by made (reply (machine_board self.old)
            (seen self.old.controller) (calls.Deliver message.now)) }
        ensures next { (messages : List MessageValue) (acks : List AckValue) (k : ℕ)
            → slice_get messages k ≡ Some message.now
            → IsNext messages acks self.old (events.Deliver k) result self.new }
    {
        let Delivery::Applied(ack) = self.controller.deliver(message) else {
            return Said::Ignored;
        };
        self.note_ack(message, &ack);
        Said::Acked {
            index: made as u64,
            ack,
        }
    }

    /// Notes that a core is started, if it is.
    fn note_kick(&mut self, core: Core, kick: Kick) -> Said
        requires { core.number < cores (machine_board self.old) }
        ensures said { (n : ℕ) → result ≡ said_by n (replies.Kick kick) }
        ensures places { (c : ℕ) → place_in self.new.places c
            ≡ place_kicked core.number kick c (place_in self.old.places c) }
        ensures firmware { self.new.firmware ≡ self.old.firmware }
        ensures controller { self.new.controller ≡ self.old.controller }
    {
        let Kick::Started(start) = kick else {
            return Said::Ignored;
        };
        self.places[core.number as usize] = Place::Started;
        Said::Kick(start)
    }

    /// Notes where cores are once this message was carried out: a Reset ends the life if no other
    /// follows.
    fn note_ack(&mut self, message: &Message, ack: &Ack)
        requires core { message.now.core.number < cores (machine_board self.old) }
        requires life { message.now.kind ≡ kinds.Reset → is_some (seen self.old.controller).life
            ≡ nat_lt message.now.life (machine_board self.old).lives }
        ensures places { (c : ℕ) → c < cores (machine_board self.old) → place_in self.new.places c
            ≡ unwrap_or (place_of_effect c
            (message_effect (machine_board self.old) message.now ack.now
            message.now.kind)) (place_in self.old.places c) }
        ensures firmware { self.new.firmware ≡ self.old.firmware }
        ensures controller { self.new.controller ≡ self.old.controller }
    {
        match message.kind {
            Kind::Down => {}
            Kind::Start => {
                if ack.applied != 0 {
                    self.places[message.core.number as usize] = Place::Started;
                }
            }
            Kind::Off => end_life(&mut self.places),
            Kind::Reset => match self.controller.life() {
                Some(_) => begin_life(&mut self.places),
                None => end_life(&mut self.places),
            },
        }
    }
}

// What the world keeps of what was said: each message and each acknowledgement.

/// Keeps the message that was sent, if one was.
pub fn keep_message(messages: &mut Vec<Message>, said: &Said) -> Result<(), Memory>
    ensures room { vec_len messages.old < vec_capacity messages.old → IsOk result }
    ensures items { OnOk result (messages.new.items
        ≡ messages.old.items ++ listed (sent_in said.now)) }
{
    if let Said::Fw {
        sent: Some(sent),
        ..
    } = said
    {
        messages.push(sent.message.copy())?;
    }
    Ok(())
}

/// Keeps the acknowledgement that was made, if one was.
pub fn keep_ack(acks: &mut Vec<Ack>, said: &Said) -> Result<(), Memory>
    ensures room { vec_len acks.old < vec_capacity acks.old → IsOk result }
    ensures items { OnOk result (acks.new.items ≡ acks.old.items ++ listed (ack_in said.now)) }
{
    if let Said::Acked { ack, .. } = said {
        acks.push(ack.copy())?;
    }
    Ok(())
}

// Where each core is, core by core.

/// Where each of so many cores is, as a life begins.
pub fn first_places(alloc: Global, cores: u16) -> Result<Vec<Place>, Memory>
    ensures length { IfOk result (λ places. length places.items ≡ cores) }
    ensures place { IfOk result (λ places. (c : ℕ) → c < cores
        → place_in places.items c ≡ first_place c) }
{
    let mut places = vec![in alloc; Place::Stopped; cores as usize]?;
    begin_life(&mut places);
    Ok(places)
}

/// The boot core is started, and every other is stopped.
pub fn begin_life(places: &mut [Place])
    ensures length { length places.new ≡ length places.old }
    ensures place { (c : ℕ) → c < length places.old → place_in places.new c ≡ first_place c }
{
    end_life(places);
    if !places.is_empty() {
        places[0] = Place::Started;
    }
}

/// Every core is stopped.
pub fn end_life(places: &mut [Place])
    ensures { places.new ≡ replicate (length places.old) Stopped }
{
    places.fill(Place::Stopped);
}

/// Where a core is after this outcome.
pub fn place_after(act: &Act) -> Place
    ensures { result ≡ place_after act.now }
{
    match act {
        Act::Stop => Place::Stopped,
        _ => Place::Running,
    }
}
