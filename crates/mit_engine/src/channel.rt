//! Channels: messages wait in them, first in, first out.
ghost use Rattle.std.specs.Prelude.{◌≡◌, ◌==◌, ◌++◌, ◌∷◌, [], OnOk, MatchOption, length};

use std::alloc::{AllocError, Global};
use std::collections::VecDeque;
use std::marker::Model;

/// A channel, which contracts see as the list of its messages, the oldest first.
#[derive(Drop)]
pub(crate) struct Channel<M> {
    messages: VecDeque<M>,
}

impl<M> Model for Channel<M> {
    ghost use Rattle.std.specs.Prelude.{List};

    ghost Value = { List M };

    ghost view = { λ channel. channel.messages.items };
}

impl<M> Channel<M> {
    /// A channel without messages.
    pub(crate) fn new(alloc: Global) -> Channel<M>
        ensures { result ≡ [] }
    {
        Channel {
            messages: VecDeque::new(alloc),
        }
    }

    /// Puts a message after all others. Where memory runs out it is dropped.
    pub(crate) fn put(&mut self, message: M) -> Result<(), AllocError>
    where
        M: Drop,
        ensures ok { OnOk result (self.new ≡ self.old ++ message ∷ []) }
    {
        self.messages.push_back(message)?;
        Ok(())
    }

    /// Takes the oldest message, or none exactly where the channel is empty.
    pub(crate) fn take(&mut self) -> Option<M>
        ensures { MatchOption result ((self.old ≡ []) × (self.new ≡ [])) (λ message. self.old ≡ message ∷ self.new) }
    {
        self.messages.pop_front()
    }

    /// Whether it has no message.
    pub(crate) fn is_empty(&self) -> bool
        ensures { result ≡ (length self.now == 0) }
    {
        self.messages.is_empty()
    }
}
