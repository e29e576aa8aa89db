// The office: one call of the kernel by the running task, by how far its desk has come and its role.
use crate::book::Book;
use crate::desk::{Desk, INSPECTED, ORDERS, Role, SIGNED, Step};
use crate::paper::{Paper, Subject};
use art::{Answer, LevelOrder, MailboxNumber, Refusal, Status};
use kernel::Kernel;
use packed_store::PackedStore;
use std::{fmt, io};

pub type Unit = Kernel<PackedStore, LevelOrder>;

// The runtime to print by, the kernel and the book, which every desk works with.
#[derive(Drop)]
pub struct Office<'a> {
    pub rt: &'a HostRuntime,
    pub unit: Unit,
    pub book: Book,
}

// A reply as it is printed: the answer, or the refusal.
#[derive(Clone, Copy)]
struct Said(Result<Answer, Refusal>);

impl fmt::Display for Said {
    fn fmt<W: fmt::Write>(&self, f: &mut fmt::Formatter<W>) -> fmt::Result {
        match self.0 {
            Ok(answer) => answer.fmt(f),
            Err(refusal) => refusal.fmt(f),
        }
    }
}

// A call and its argument, as they are printed.
#[derive(Clone, Copy)]
struct With<A>(&'static str, A);

impl<A: fmt::Display> fmt::Display for With<A> {
    fn fmt<W: fmt::Write>(&self, f: &mut fmt::Formatter<W>) -> fmt::Result {
        let With(call, argument) = self;
        write!(f, "{call} {argument}")
    }
}

impl Said {
    fn status(self) -> Option<Status> {
        self.0.ok().map(|answer| answer.status)
    }
}

impl Office<'_> {
    // A tick, and what it did.
    pub(crate) fn tick(&mut self) -> io::Result<()> {
        let (readied, running) = self.unit.tick();
        let counter = self.unit.ticks();
        println!(self.rt; "tick {counter}: readied={readied} running={running}")
    }

    // One call by a desk whose task runs.
    pub(crate) fn work(&mut self, desk: &mut Desk) -> anyhow::Result<()> {
        match (desk.step, desk.role) {
            (_, Role::Intake([])) => self.terminate(desk)?,
            (Step::Prepare, Role::Clock) | (Step::Rest, _) => self.rest(desk)?,
            (Step::Prepare, _) => self.prepare(desk)?,
            (Step::Wake, _) => self.wake(desk)?,
            (Step::Call, Role::Intake([order, later @ ..])) => self.file(desk, order, later)?,
            (Step::Call, Role::Signer) => self.receive(desk, ORDERS)?,
            (Step::Call, Role::Inspector) => self.receive(desk, SIGNED)?,
            (Step::Call, _) => self.receive(desk, INSPECTED)?,
            (Step::Collect, Role::Intake([_, later @ ..])) => self.hear(desk, later)?,
            (Step::Collect, _) => self.collect(desk)?,
            (Step::Pass, Role::Signer) => self.certify(desk)?,
            (Step::Pass, Role::Inspector) => self.forward(desk, INSPECTED)?,
            (Step::Pass, _) => self.publish(desk)?,
        }
        Ok(())
    }

    // Prints a call and its reply.
    fn report<C: fmt::Display + Drop>(&self, desk: &Desk, call: C, said: Said) -> io::Result<()> {
        let name = desk.name;
        println!(self.rt; "{name}: {call} -> {said}")
    }

    // An intake with no order left ends.
    fn terminate(&mut self, desk: &Desk) -> io::Result<()> {
        let said = Said(self.unit.terminate());
        self.report(desk, "terminate", said)
    }

    // Sets the deadline of the next wait.
    fn prepare(&mut self, desk: &mut Desk) -> io::Result<()> {
        let deadline = self.unit.ticks().saturating_add(desk.patience);
        desk.deadline = deadline;
        desk.step = Step::Call;
        let said = Said(self.unit.set_deadline(deadline));
        self.report(desk, With("set_deadline", deadline), said)
    }

    // Files the next order, and waits until it is taken.
    fn file(
        &mut self,
        desk: &mut Desk,
        order: &str,
        later: &'static [&'static str],
    ) -> io::Result<()> {
        let subject = Subject::from(order);
        let said = Said(self.unit.send_wait(ORDERS, &subject.0));
        match said.status() {
            Some(Status::Blocked) => desk.step = Step::Collect,
            Some(Status::Ok) => {
                desk.role = Role::Intake(later);
                desk.step = Step::Prepare;
            }
            _ => desk.step = Step::Rest,
        }
        self.report(desk, With("send_wait", subject), said)
    }

    // An intake hears what became of its order: taken, or withdrawn and to be filed again.
    fn hear(&mut self, desk: &mut Desk, later: &'static [&'static str]) -> io::Result<()> {
        let said = Said(self.unit.collect(&mut []));
        self.report(desk, "collect", said)?;
        desk.step = Step::Prepare;
        let name = desk.name;
        if said.status() != Some(Status::Ok) {
            return println!(self.rt; "{name}: the order was withdrawn, and will be filed again");
        }
        desk.role = Role::Intake(later);
        let counter = self.unit.ticks();
        let deadline = desk.deadline;
        if counter < deadline {
            return println!(self.rt; "{name}: the order was taken");
        }
        println!(self.rt;
            "{name} hears at {counter}, past its deadline {deadline}, that the order was taken in time: it does not file again"
        )
    }

    // Receives, or waits to.
    fn receive(&mut self, desk: &mut Desk, mailbox: MailboxNumber) -> io::Result<()> {
        let said = Said(self.unit.receive_wait(mailbox, &mut desk.paper.0));
        self.received(desk, "receive_wait", said)
    }

    // Collects what it has waited for.
    fn collect(&mut self, desk: &mut Desk) -> io::Result<()> {
        let said = Said(self.unit.collect(&mut desk.paper.0));
        self.received(desk, "collect", said)
    }

    // What a desk does after a receive or its collect.
    fn received(&self, desk: &mut Desk, call: &'static str, said: Said) -> io::Result<()> {
        desk.step = match said.status() {
            Some(Status::Ok) => Step::Pass,
            Some(Status::Blocked) => Step::Collect,
            _ => Step::Prepare,
        };
        self.report(desk, call, said)
    }

    // A signer gives a serial, passes the certificate on, and then rests.
    fn certify(&mut self, desk: &mut Desk) -> anyhow::Result<()> {
        let certificate = self.book.enter(Subject::from(&desk.paper))?;
        desk.paper = Paper::from(certificate);
        let name = desk.name;
        println!(self.rt; "{name}: {certificate}")?;
        self.forward(desk, SIGNED)?;
        desk.step = Step::Rest;
        Ok(())
    }

    // Passes the paper in hand on.
    fn forward(&mut self, desk: &mut Desk, mailbox: MailboxNumber) -> io::Result<()> {
        desk.step = Step::Prepare;
        let said = Said(self.unit.send_no_wait(mailbox, &desk.paper.0));
        self.report(desk, "send_no_wait", said)
    }

    // A clerk publishes a certificate.
    fn publish(&mut self, desk: &mut Desk) -> io::Result<()> {
        desk.step = Step::Prepare;
        let name = desk.name;
        let subject = Subject::from(&desk.paper);
        println!(self.rt; "{name}: published {subject}")?;
        let ticks = self.unit.ticks();
        println!(self.rt; "{name}: ticks -> {ticks}")
    }

    fn rest(&mut self, desk: &mut Desk) -> io::Result<()> {
        desk.step = Step::Wake;
        let said = Said(self.unit.wait(desk.rest));
        self.report(desk, "wait", said)
    }

    fn wake(&mut self, desk: &mut Desk) -> io::Result<()> {
        desk.step = Step::Prepare;
        let said = Said(self.unit.collect(&mut []));
        self.report(desk, "collect", said)
    }
}
