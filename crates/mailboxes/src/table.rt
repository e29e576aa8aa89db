// The table of mailboxes: finding one by its number, opening and closing it, and changing it where it is in use.
ghost use Rattle.std.specs.Prelude.{◌≡◌, ◌<◌, ◌≤◌, true, [], is_some, Some, None, IfSome, MatchOption, slice_index_or, slice_set};
ghost use Rattle.std.specs.Fn.{FnOnceReturnsAtMut, FnOnceTakesAtMut};
ghost use Rattle.art.specs.State.{changed};
ghost use Rattle.art.specs.Verbs.{join_receivers, leave_oldest, leave_receivers, mailbox_in, oldest, queue, unqueue, unqueue_oldest};
ghost use Rattle.mailboxes.specs.Meaning.{edited_at, mailbox_of, mailboxes_in, meaning, room_for_message, room_for_receiver};

use crate::{Mailbox, Mailboxes, ROWS};
use art::{MailboxNumber, Message, TaskNumber};
use fixed::{edit, write};

impl Mailboxes {
    // No mailbox.
    #[tactic(auto, using(crate::proofs::Rows::no_rows))]
    pub fn none() -> Self
        ensures { mailboxes_in result ≡ (λ _. None) }
    {
        Mailboxes { rows: [None; ROWS] }
    }

    // The mailbox of a number, where it is in use.
    pub fn find(&self, m: MailboxNumber) -> Option<&Mailbox>
        ensures value { MatchOption result (mailboxes_in self.now m ≡ None) (λ b. mailboxes_in self.now m ≡ Some (meaning b.now)) }
        ensures below { is_some result ≡ true → m < 32 }
    {
        self.rows.get(usize::from(m))?.as_ref()
    }

    // The receiver that has waited longest at a mailbox, if there is one.
    pub fn oldest_receiver(&self, m: MailboxNumber) -> Option<TaskNumber>
        ensures { result ≡ oldest (mailbox_in (mailboxes_in self.now m)).receivers }
    {
        self.find(m)?.oldest_receiver()
    }

    // A number has another row, or none. One line over `write`, as in the roster: each table has its own meaning to tell of.
    fn replace(&mut self, m: MailboxNumber, row: Option<Mailbox>)
        requires { is_some row ≡ true → m < 32 }
        ensures { mailboxes_in self.new ≡ changed (mailboxes_in self.old) m (mailbox_of row) }
    {
        write(&mut self.rows, usize::from(m), row);
    }

    // A mailbox opens, with no message and no receiver. It asks for a number that has a row, since it is there afterwards: a type of
    // bounded numbers would ask the same where one is made. A struct for capacity and size would ask callers for a narrower type.
    pub fn open(&mut self, m: MailboxNumber, capacity: u8, size: u8)
        requires number { m < 32 }
        requires bounded { capacity ≤ 16 }
        ensures { mailboxes_in self.new ≡ changed (mailboxes_in self.old) m (Some (record { capacity = capacity; size = size; messages = []; receivers = [] })) }
    {
        self.replace(m, Some(Mailbox::empty(capacity, size)));
    }

    // A mailbox closes: its number is not in use any more.
    pub fn close(&mut self, m: MailboxNumber)
        ensures { mailboxes_in self.new ≡ changed (mailboxes_in self.old) m None }
    {
        self.replace(m, None);
    }

    // A mailbox changes, where it is in use. The six one-line functions over it, below, have the names of the rules' verbs.
    fn edit<F: FnOnce(&mut Mailbox)>(&mut self, m: MailboxNumber, change: F)
        requires { IfSome (slice_index_or self.old.rows m None) (λ row. FnOnceTakesAtMut F.FnOnce change row) }
        ensures { MatchOption (slice_index_or self.old.rows m None) (self.new.rows ≡ self.old.rows) (λ row. (next : _) × FnOnceReturnsAtMut F.FnOnce change row tt next × (self.new.rows ≡ slice_set self.old.rows m (Some next))) }
    {
        edit(&mut self.rows, usize::from(m), change);
    }

    // A message comes to the end of a mailbox's queue. The room that this asks for, and that `join_receivers` does, is one
    // definition each: a type for a mailbox with room would have to borrow the table.
    pub fn queue(&mut self, m: MailboxNumber, x: Message)
        requires room { room_for_message (mailboxes_in self.old m) }
        ensures { mailboxes_in self.new ≡ edited_at (queue x) (mailboxes_in self.old) m }
    {
        self.edit(m, |mailbox| mailbox.queue(x));
    }

    // The oldest message leaves a mailbox's queue, if there is one; then the queue has a free place.
    pub fn unqueue_oldest(&mut self, m: MailboxNumber)
        ensures change { mailboxes_in self.new ≡ edited_at unqueue_oldest (mailboxes_in self.old) m }
        ensures room { is_some (mailboxes_in self.old m) ≡ true → room_for_message (mailboxes_in self.new m) }
    {
        self.edit(m, |mailbox| mailbox.unqueue_oldest());
    }

    // Message n leaves a mailbox's queue, if it is there.
    pub fn unqueue(&mut self, m: MailboxNumber, n: u32)
        ensures { mailboxes_in self.new ≡ edited_at (unqueue n) (mailboxes_in self.old) m }
    {
        self.edit(m, |mailbox| mailbox.unqueue(n));
    }

    // A task comes to the end of a mailbox's receivers.
    pub fn join_receivers(&mut self, m: MailboxNumber, t: TaskNumber)
        requires room { room_for_receiver (mailboxes_in self.old m) }
        ensures { mailboxes_in self.new ≡ edited_at (join_receivers t) (mailboxes_in self.old) m }
    {
        self.edit(m, |mailbox| mailbox.join_receivers(t));
    }

    // The receiver that has waited longest leaves a mailbox, if there is one.
    pub fn leave_oldest(&mut self, m: MailboxNumber)
        ensures { mailboxes_in self.new ≡ edited_at leave_oldest (mailboxes_in self.old) m }
    {
        self.edit(m, |mailbox| mailbox.leave_oldest());
    }

    // Task t leaves a mailbox's receivers, if it is there.
    pub fn leave_receivers(&mut self, m: MailboxNumber, t: TaskNumber)
        ensures { mailboxes_in self.new ≡ edited_at (leave_receivers t) (mailboxes_in self.old) m }
    {
        self.edit(m, |mailbox| mailbox.leave_receivers(t));
    }
}
