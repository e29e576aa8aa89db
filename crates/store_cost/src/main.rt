// Repeats store calls on messages of 128 bytes, for bench/store_cost.sh to count their instructions.
// Arguments: the kind of store, what each turn does, the messages held beside, the turns.
#![tactic(auto)]

use packed_store::PackedStore;
use slot_store::SlotStore;
use std::env;
use std::str::FromStr;
use store::{MAX_LENGTH, Store, StoreFault};
use turns::{Arguments, NoSuchTurn, StoreKind, repeat};

#[derive(Clone, Copy)]
enum Turn {
    Clear,
    PutAndClear,
    PutAndDiscard,
    PutCopyAndDiscard,
}

impl FromStr for Turn {
    type Err = NoSuchTurn;

    fn from_str(word: &str) -> Result<Turn, NoSuchTurn> {
        match word {
            "clear" => Ok(Turn::Clear),
            "put_clear" => Ok(Turn::PutAndClear),
            "put_discard" => Ok(Turn::PutAndDiscard),
            "put_copy_discard" => Ok(Turn::PutCopyAndDiscard),
            _ => Err(NoSuchTurn),
        }
    }
}

// How many turns were accepted whole, beside messages that are held all the while.
fn measure<S: Store + Drop>(mut store: S, turn: Turn, held: u32, turns: u32) -> u32 {
    let bytes = [7; MAX_LENGTH];
    let mut buffer = [0; MAX_LENGTH];
    for message in 0..held {
        let _ = store.put(message, &bytes);
    }
    match turn {
        Turn::Clear => repeat(turns, || -> Result<(), StoreFault> {
            store.clear();
            Ok(())
        }),
        Turn::PutAndClear => repeat(turns, || {
            let put = store.put(held, &bytes);
            store.clear();
            put
        }),
        Turn::PutAndDiscard => repeat(turns, || {
            store.put(held, &bytes)?;
            store.discard(held)
        }),
        Turn::PutCopyAndDiscard => repeat(turns, || {
            store.put(held, &bytes)?;
            store.copy(held, &mut buffer)?;
            store.discard(held)
        }),
    }
}

// The choice of a store stands in both programs that count: each hands it to a generic function of its own.
fn run(rt: &HostRuntime) -> anyhow::Result<()> {
    let Arguments {
        kind,
        turn,
        beside,
        turns,
    } = Arguments::<Turn, u32>::read(env::args(rt)?, "no number of messages")?;
    let accepted = match kind {
        StoreKind::Slot => measure(SlotStore::new(), turn, beside, turns),
        StoreKind::Packed => measure(PackedStore::new(), turn, beside, turns),
    };
    println!(rt; "accepted {accepted}")?;
    Ok(())
}

fn main(rt: HostRuntime) -> anyhow::Result<()> {
    run(&rt)
}
