// What is read of one mailbox, and what is changed in it.
ghost use Rattle.std.specs.Prelude.{◌≡◌, ◌≤◌, false, ◌&&◌, [], Some};
ghost use Rattle.art.specs.Verbs.{fills, is_empty, join_receivers, leave_oldest, leave_receivers, oldest, other_mode, queue, removed, unqueue, unqueue_oldest, unqueued};
ghost use Rattle.fixed.specs.Items.{items};
ghost use Rattle.mailboxes.specs.Meaning.{Edited, Gap, meaning, room_for_message, room_for_receiver};

use crate::Mailbox;
use art::{Message, TaskNumber};
use fixed::FixedList;

// What is done with the two lists comes in pairs, whose rules have names of their own. Most are one line. The two that find a place
// and leave it are longer: `FixedList::remove_where(test)` proves, with a contract by the closure's predicates, but each of the two
// would still need its own proof of what its test tells, and a wrong test would be refused there and not in the code.
impl Mailbox {
    // A row with no message and no receiver.
    pub(crate) fn empty(capacity: u8, size: u8) -> Self
        requires { capacity ≤ 16 }
        ensures { meaning result ≡ record { capacity = capacity; size = size; messages = []; receivers = [] } }
    {
        Mailbox {
            capacity,
            size,
            messages: FixedList::empty(Message {
                number: 0,
                sender: None,
            }),
            receivers: FixedList::empty(0),
        }
    }

    // The size that its messages have.
    pub fn size(&self) -> u8
        ensures { result ≡ (meaning self.now).size }
    {
        self.size
    }

    // The oldest message.
    pub fn oldest(&self) -> Option<Message>
        ensures { result ≡ oldest (meaning self.now).messages }
    {
        self.messages.as_slice().first().copied()
    }

    // The receiver that has waited longest.
    pub fn oldest_receiver(&self) -> Option<TaskNumber>
        ensures { result ≡ oldest (meaning self.now).receivers }
    {
        self.receivers.as_slice().first().copied()
    }

    // Whether there is a message, and its sender's waiting differs from the one given. The mode is a bool, as in the rules.
    pub fn is_other_mode(&self, waiting: bool) -> bool
        ensures { result ≡ other_mode waiting (oldest (meaning self.now).messages) }
    {
        self.oldest().is_some_and(|x| x.sender.is_some() != waiting)
    }

    // Whether there are as many messages as the mailbox has room for.
    pub fn messages_fill(&self) -> bool
        ensures value { result ≡ fills (meaning self.now) (meaning self.now).messages }
        ensures room { result ≡ false → room_for_message (Some (meaning self.now)) }
    {
        self.messages.len() >= usize::from(self.capacity)
    }

    // Whether there are as many receivers as the mailbox has room for.
    pub fn receivers_fill(&self) -> bool
        ensures value { result ≡ fills (meaning self.now) (meaning self.now).receivers }
        ensures room { result ≡ false → room_for_receiver (Some (meaning self.now)) }
    {
        self.receivers.len() >= usize::from(self.capacity)
    }

    // Whether there is neither a message nor a receiver.
    pub fn is_empty(&self) -> bool
        ensures { result ≡ (is_empty (meaning self.now).messages && is_empty (meaning self.now).receivers) }
    {
        self.messages.len() == 0 && self.receivers.len() == 0
    }

    // Where message n first stands in the queue, if it does.
    fn message_place(&self, n: u32) -> Option<usize>
        ensures { Gap (items self.now.messages) (unqueued n (items self.now.messages)) result }
    {
        self.messages.as_slice().iter().position(|x| x.number == n)
    }

    // Where task t first stands among the receivers, if it does.
    fn receiver_place(&self, t: TaskNumber) -> Option<usize>
        ensures { Gap (items self.now.receivers) (removed t (items self.now.receivers)) result }
    {
        self.receivers.as_slice().iter().position(|u| *u == t)
    }

    // A message comes to the end of the queue.
    pub(crate) fn queue(&mut self, x: Message)
        requires { room_for_message (Some (meaning self.old)) }
        ensures { Edited (queue x) self.old self.new }
    {
        self.messages.push(x);
    }

    // The oldest message leaves the queue, if there is one.
    pub(crate) fn unqueue_oldest(&mut self)
        ensures change { Edited unqueue_oldest self.old self.new }
        ensures room { room_for_message (Some (meaning self.new)) }
    {
        self.messages.remove_first();
    }

    // Message n leaves the queue, if it is there.
    pub(crate) fn unqueue(&mut self, n: u32)
        ensures { Edited (unqueue n) self.old self.new }
    {
        if let Some(i) = self.message_place(n) {
            self.messages.remove(i);
        }
    }

    // A receiver comes to the end of the receivers.
    pub(crate) fn join_receivers(&mut self, t: TaskNumber)
        requires { room_for_receiver (Some (meaning self.old)) }
        ensures { Edited (join_receivers t) self.old self.new }
    {
        self.receivers.push(t);
    }

    // The receiver that has waited longest leaves, if there is one.
    pub(crate) fn leave_oldest(&mut self)
        ensures { Edited leave_oldest self.old self.new }
    {
        self.receivers.remove_first();
    }

    // Task t leaves the receivers, if it is there.
    pub(crate) fn leave_receivers(&mut self, t: TaskNumber)
        ensures { Edited (leave_receivers t) self.old self.new }
    {
        if let Some(i) = self.receiver_place(t) {
            self.receivers.remove(i);
        }
    }
}
