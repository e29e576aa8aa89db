// A day in the signing unit, on a kernel over the packed store and the level order. Intake desks file signing
// orders and wait until a signer has taken them, each under a deadline; signers give serials; inspectors pass
// certificates on; a directory clerk publishes them; a clock tells the time. Ticks fall between calls by a
// fixed pattern. Every line is one call of the kernel by the running task, or a tick.
#![tactic(auto)]

mod book;
mod desk;
mod office;
mod paper;

use art::LevelOrder;
use book::Book;
use desk::{Desk, INSPECTED, ORDERS, SIGNED, staff};
use kernel::{StartUp, init_kernel};
use office::Office;
use packed_store::PackedStore;
use paper::{Paper, Subject};
use std::io;

// A tick falls behind each call that stands under a `t`.
const PATTERN: &str = "...t...t...t";

const CALLS: usize = 200;

// Makes the three mailboxes and the dozen tasks.
fn open_unit(
    rt: &HostRuntime,
    unit: &mut StartUp<PackedStore, LevelOrder>,
    desks: &[Desk],
) -> io::Result<()> {
    for (mailbox, capacity, size) in [
        (ORDERS, 4, Subject::LENGTH),
        (SIGNED, 8, Paper::LENGTH),
        (INSPECTED, 8, Paper::LENGTH),
    ] {
        // A cast, since there is no From; both lengths are below 256.
        if let Err(refusal) = unit.create_mailbox(mailbox, capacity, size as u8) {
            println!(rt; "create_mailbox {mailbox}: {refusal}")?;
        }
    }
    for desk in desks {
        let task = desk.task;
        let name = desk.name;
        match unit.create_task(task, u32::MAX, desk.level) {
            Ok(_) => println!(rt; "task {task} is {name}")?,
            Err(refusal) => println!(rt; "create_task {task}: {refusal}")?,
        }
    }
    Ok(())
}

// The running task makes one call, and a tick falls where the pattern says so; behind task 0, always.
fn day(office: &mut Office, desks: &mut [Desk]) -> anyhow::Result<()> {
    for mark in PATTERN.as_bytes().iter().cycle().take(CALLS) {
        let running = office.unit.running();
        let desk = desks.iter_mut().find(|desk| desk.task == running);
        let ticks = desk.is_none() || *mark == b't';
        if let Some(desk) = desk {
            office.work(desk)?;
        }
        if ticks {
            office.tick()?;
        }
    }
    Ok(())
}

fn run(rt: &HostRuntime) -> anyhow::Result<()> {
    println!(rt; "ticks by the pattern {PATTERN}, and whenever task 0 runs")?;
    let mut desks = staff(rt.alloc())?;
    let mut start_up = init_kernel(PackedStore::new(), LevelOrder, 1);
    open_unit(rt, &mut start_up, &desks)?;
    let mut office = Office {
        rt,
        unit: start_up.run(),
        book: Book::new(rt.alloc()),
    };
    day(&mut office, &mut desks)?;
    let Office { unit, book, .. } = office;
    book.show(rt)?;
    let counts = unit.close();
    println!(rt; "{counts}")?;
    Ok(())
}

fn main(rt: HostRuntime) -> anyhow::Result<()> {
    run(&rt)
}
