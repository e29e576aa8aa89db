// Plays an example on a kernel, line by line.
use crate::tests::script::{Call, DOTS, Example, Line, counts_of};
use art::{Answer, Order, Refusal};
use kernel::{Kernel, init_kernel};
use std::fmt;
use std::process::Abort;
use store::Store;

// What is played on which store and order, for the message of a check that fails.
#[derive(Clone, Copy)]
struct Played {
    example: &'static str,
    kind: &'static str,
}

impl fmt::Display for Played {
    fn fmt<W: fmt::Write>(&self, f: &mut fmt::Formatter<W>) -> fmt::Result {
        let example = self.example;
        let kind = self.kind;
        write!(f, "{example}, {kind}")
    }
}

// A kernel that plays an example.
#[derive(Drop)]
struct Player<'a, R: Abort, S: Store, O: Order> {
    rt: &'a R,
    played: Played,
    kernel: Kernel<S, O>,
}

impl<R: Abort, S: Store, O: Order> Player<'_, R, S, O> {
    fn answer(&mut self, call: Call, buffer: &mut [u8]) -> Result<Answer, Refusal> {
        let kernel = &mut self.kernel;
        match call {
            Call::CreateTask(number, deadline, level) => {
                kernel.create_task(number, deadline, level)
            }
            Call::CreateMailbox(number, capacity, size) => {
                kernel.create_mailbox(number, capacity, size)
            }
            Call::Terminate => kernel.terminate(),
            Call::RemoveMailbox(number) => kernel.remove_mailbox(number),
            Call::SendWait(mailbox, bytes) => kernel.send_wait(mailbox, bytes),
            Call::SendNoWait(mailbox, bytes) => kernel.send_no_wait(mailbox, bytes),
            Call::ReceiveWait(mailbox) => kernel.receive_wait(mailbox, buffer),
            Call::ReceiveNoWait(mailbox) => kernel.receive_no_wait(mailbox, buffer),
            Call::Wait(ticks) => kernel.wait(ticks),
            Call::Collect => kernel.collect(buffer),
            Call::CollectBare => kernel.collect(&mut []),
            Call::SetDeadline(deadline) => kernel.set_deadline(deadline),
            Call::SetTicks(ticks) => kernel.set_ticks(ticks),
        }
    }

    // The call with a buffer of so many bytes answers so, and the buffer then holds these.
    fn calls<const N: usize>(
        &mut self,
        call: Call,
        before: [u8; N],
        says: Result<Answer, Refusal>,
        after: [u8; N],
    ) {
        let played = self.played;
        let mut buffer = before;
        assert_eq!(self.rt; self.answer(call, &mut buffer), says, "{played}");
        assert_eq!(self.rt; buffer, after, "{played}");
    }

    fn repeat(&mut self, times: u8, call: Call) {
        let played = self.played;
        for _ in 0..times {
            let mut buffer = DOTS;
            assert_eq!(self.rt; self.answer(call, &mut buffer).err(), None, "{played}");
        }
    }

    fn keeps_to(&mut self, line: Line) {
        let played = self.played;
        let rt = self.rt;
        match line {
            Line::Call(call, says) => self.calls(call, DOTS, Ok(Answer::from(says)), says.buffer()),
            Line::Refused(call, refusal) => self.calls(call, DOTS, Err(refusal), DOTS),
            Line::Short(call, refusal) => self.calls(call, *b".", Err(refusal), *b"."),
            Line::Repeat(times, call) => self.repeat(times, call),
            Line::Tick(readied, running) => {
                assert_eq!(rt; self.kernel.tick(), (readied, running), "{played}");
            }
            Line::Running(task) => assert_eq!(rt; self.kernel.running(), task, "{played}"),
            Line::Ticks(ticks) => assert_eq!(rt; self.kernel.ticks(), ticks, "{played}"),
            Line::Deadline(deadline) => assert_eq!(rt;
                self.kernel.deadline(),
                deadline,
                "{played}"
            ),
        }
    }
}

// The example's tasks, and a mailbox 3 for two messages of two bytes.
pub(crate) fn play<R: Abort, S: Store + Drop, O: Order + Drop>(
    rt: &R,
    kind: &'static str,
    store: S,
    order: O,
    example: &Example,
) {
    let played = Played {
        example: example.name,
        kind,
    };
    let mut start = init_kernel(store, order, example.first);
    for (number, deadline, level) in example.tasks {
        assert_eq!(rt;
            start.create_task(*number, *deadline, *level).err(),
            None,
            "{played}"
        );
    }
    assert_eq!(rt; start.create_mailbox(3, 2, 2).err(), None, "{played}");
    let mut player = Player {
        rt,
        played,
        kernel: start.run(),
    };
    for line in example.lines {
        player.keeps_to(*line);
    }
    let Player { kernel, .. } = player;
    assert_eq!(rt; kernel.close(), counts_of(example.counts), "{played}");
}
