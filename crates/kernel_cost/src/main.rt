// Repeats kernel calls, for bench/kernel_cost.sh to count their instructions.
// Arguments: the kind of store, what each turn does, the tasks, the turns.
#![tactic(auto)]

use art::{LAST_TASK, LevelOrder};
use kernel::{Kernel, init_kernel};
use packed_store::PackedStore;
use slot_store::SlotStore;
use std::env;
use std::str::FromStr;
use store::{MAX_LENGTH, Store};
use turns::{Arguments, NoSuchTurn, StoreKind, repeat};

#[derive(Clone, Copy)]
enum Turn {
    // send_no_wait and receive_no_wait of 128 bytes.
    Exchange,
    // receive_wait, send_wait and collect of 128 bytes, between two tasks.
    BlockingExchange,
    // A tick that wakes nobody.
    Tick,
}

impl FromStr for Turn {
    type Err = NoSuchTurn;

    fn from_str(word: &str) -> Result<Turn, NoSuchTurn> {
        match word {
            "exchange" => Ok(Turn::Exchange),
            "blocking_exchange" => Ok(Turn::BlockingExchange),
            "tick" => Ok(Turn::Tick),
            _ => Err(NoSuchTurn),
        }
    }
}

// A kernel with one mailbox and some tasks, by rising level.
fn prepared<S: Store>(store: S, tasks: u8) -> Kernel<S, LevelOrder> {
    let mut start_up = init_kernel(store, LevelOrder, 0);
    // A cast, since there is no From; MAX_LENGTH is 128.
    let _ = start_up.create_mailbox(0, 1, MAX_LENGTH as u8);
    for number in 1..=tasks.min(LAST_TASK) {
        let _ = start_up.create_task(number, u32::MAX, number / 2);
    }
    start_up.run()
}

// How many turns were accepted whole; for ticks all tasks sleep.
fn measure<S: Store + Drop>(store: S, turn: Turn, tasks: u8, turns: u32) -> u32 {
    let mut kernel = prepared(store, tasks);
    let bytes = [7; MAX_LENGTH];
    let mut buffer = [0; MAX_LENGTH];
    match turn {
        Turn::Exchange => repeat(turns, || {
            kernel.send_no_wait(0, &bytes)?;
            kernel.receive_no_wait(0, &mut buffer)
        }),
        Turn::BlockingExchange => repeat(turns, || {
            kernel.receive_wait(0, &mut buffer)?;
            kernel.send_wait(0, &bytes)?;
            kernel.collect(&mut buffer)
        }),
        Turn::Tick => {
            for _ in 0..tasks {
                let _ = kernel.wait(u32::MAX);
            }
            repeat(turns, || match kernel.tick() {
                (0, running) => Ok(running),
                (readied, _) => Err(readied),
            })
        }
    }
}

// The choice of a store stands in both programs that count: each hands it to a generic function of its own.
fn run(rt: &HostRuntime) -> anyhow::Result<()> {
    let Arguments {
        kind,
        turn,
        beside,
        turns,
    } = Arguments::<Turn, u8>::read(env::args(rt)?, "no number of tasks")?;
    let accepted = match kind {
        StoreKind::Slot => measure(SlotStore::new(), turn, beside, turns),
        StoreKind::Packed => measure(PackedStore::new(), turn, beside, turns),
    };
    println!(rt; "accepted {accepted}")?;
    Ok(())
}

fn main(rt: HostRuntime) -> anyhow::Result<()> {
    run(&rt)
}
