//! Messages that are held.
ghost use Rattle.std.specs.Prelude.{◌≡◌, ℕ, ◌≤◌, [], length, take, OnOk, OnErr};
ghost use Rattle.std.specs.List.{slice_get};
ghost use Rattle.std.specs.Option.{option_copied};
ghost use Rattle.arc_cluster.specs.Held.{with_envelope, with_envelopes};

use arc_bytes::Memory;
use arc_data::Message;
use std::alloc::Global;

/// A message, and the node that it is for.
#[derive(Drop)]
pub struct Envelope {
    pub to: u8,
    pub message: Message,
}

/// How many messages are held at most. More are lost.
const MAX_HELD: usize = 4096;

/// Messages that can be delivered later, again and again, in the order in which they were held.
#[derive(Drop)]
pub(crate) struct Held {
    envelopes: Vec<Envelope>,
}

impl Held {
    /// No messages.
    pub(crate) fn none(alloc: Global) -> Held
        ensures { result.envelopes.items ≡ [] }
    {
        Held {
            envelopes: Vec::new(alloc),
        }
    }

    /// Holds a message behind the others. Where there are 4,096, it is lost.
    pub(crate) fn hold(&mut self, to: u8, message: Message) -> Result<(), Memory>
        ensures held { OnOk result (self.new.envelopes.items
            ≡ with_envelope self.old.envelopes.items (record { to = to; message = message })) }
        ensures memory { OnErr result (self.new.envelopes.items ≡ self.old.envelopes.items) }
    {
        if self.envelopes.len() >= MAX_HELD {
            drop(message);
            return Ok(());
        }
        match self.envelopes.push(Envelope { to, message }) {
            Ok(()) => Ok(()),
            Err(lost) => {
                drop(lost);
                Err(Memory)
            }
        }
    }

    /// Holds copies of messages to one node, in order. Where memory is wanting, the first of them are held.
    pub(crate) fn hold_copies(
        &mut self,
        alloc: Global,
        to: u8,
        messages: &[Message],
    ) -> Result<(), Memory>
        ensures held { OnOk result (self.new.envelopes.items
            ≡ with_envelopes self.old.envelopes.items to messages.now) }
        ensures memory { OnErr result ((n : ℕ) × (self.new.envelopes.items
            ≡ with_envelopes self.old.envelopes.items to (take n messages.now))) }
    {
        for message in messages {
            let copy = message.copy(alloc)?;
            self.hold(to, copy)?;
        }
        Ok(())
    }

    /// How many there are.
    pub(crate) fn len(&self) -> u32
        requires { length self.now.envelopes.items ≤ 4096 }
        ensures { result ≡ length self.now.envelopes.items }
    {
        self.envelopes.len() as u32
    }

    /// The one with this number, from 0 on.
    pub(crate) fn get(&self, number: u32) -> Option<&Envelope>
        ensures { option_copied result ≡ slice_get self.now.envelopes.items number }
    {
        self.envelopes.get(number as usize)
    }
}
