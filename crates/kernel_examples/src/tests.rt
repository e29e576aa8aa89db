// The examples, played over both stores and both orders.
mod deadlines;
mod fates;
mod hand_overs;
mod kernel_refusals;
mod mailbox_refusals;
mod play;
mod script;
mod start_up;
mod store_full;
mod turns;

use crate::tests::deadlines::{DEADLINES, SLEEPS};
use crate::tests::fates::FATES;
use crate::tests::hand_overs::{SENDERS_GO_ON, SENDERS_WAIT};
use crate::tests::kernel_refusals::KERNEL_REFUSALS;
use crate::tests::mailbox_refusals::MAILBOX_REFUSALS;
use crate::tests::play::play;
use crate::tests::script::Example;
use crate::tests::start_up::start_up_refuses;
use crate::tests::store_full::{MEMORY_FULL, SLOTS_FULL};
use crate::tests::turns::{DEADLINE_TURNS, EQUALS, LEVEL_TURNS};
use art::{DeadlineOrder, LevelOrder, Order};
use packed_store::PackedStore;
use slot_store::SlotStore;
use std::process::Abort;
use std::test::Fail;
use store::Store;

// Plays each example on a kernel of its own, over such a store and by such an order.
fn play_all<S: Store + Drop, O: Order + Copy, F: Fn() -> S>(
    rt: &impl Abort,
    kind: &'static str,
    make: F,
    order: O,
    examples: &[Example],
)
    requires { F.IsAlwaysCallable make }
{
    for example in examples {
        play(rt, kind, make(), order, example);
    }
}

// Both stores, by such an order, over the slots first.
fn on_both_stores<O: Order + Copy>(
    rt: &impl Abort,
    [slots, packed]: [&'static str; 2],
    order: O,
    examples: &[Example],
) {
    play_all(rt, slots, SlotStore::new, order, examples);
    play_all(rt, packed, PackedStore::new, order, examples);
}

fn by_deadline(rt: &impl Abort, examples: &[Example]) {
    let kinds = ["slots by deadline", "packed by deadline"];
    on_both_stores(rt, kinds, DeadlineOrder, examples);
}

fn by_level(rt: &impl Abort, examples: &[Example]) {
    let kinds = ["slots by level", "packed by level"];
    on_both_stores(rt, kinds, LevelOrder, examples);
}

// Both orders, over such a store, by deadline first.
fn by_both_orders<S: Store + Drop, F: Fn() -> S + Copy>(
    rt: &impl Abort,
    kinds: [&'static str; 2],
    make: F,
    examples: &[Example],
)
    requires { F.IsAlwaysCallable make }
{
    let [by_deadline, by_level] = kinds;
    play_all(rt, by_deadline, make, DeadlineOrder, examples);
    play_all(rt, by_level, make, LevelOrder, examples);
}

// Both stores and both orders.
fn on_every_kind(rt: &impl Abort, examples: &[Example]) {
    by_deadline(rt, examples);
    by_level(rt, examples);
}

#[test]
fn senders_that_wait(rt: HostRuntime) {
    on_every_kind(&rt, &SENDERS_WAIT);
}

#[test]
fn senders_that_go_on(rt: HostRuntime) {
    on_every_kind(&rt, &SENDERS_GO_ON);
}

#[test]
fn messages_meet_their_fates(rt: HostRuntime) {
    on_every_kind(&rt, &FATES);
}

#[test]
fn the_kernel_refuses(rt: HostRuntime) {
    on_every_kind(&rt, &KERNEL_REFUSALS);
}

#[test]
fn a_mailbox_refuses(rt: HostRuntime) {
    on_every_kind(&rt, &MAILBOX_REFUSALS);
}

#[test]
fn deadlines_are_reached(rt: HostRuntime) {
    on_every_kind(&rt, &DEADLINES);
}

#[test]
fn sleep_ends(rt: HostRuntime) {
    on_every_kind(&rt, &SLEEPS);
}

#[test]
fn equally_urgent_tasks_keep_their_turn(rt: HostRuntime) {
    on_every_kind(&rt, &EQUALS);
}

#[test]
fn a_start_up_kernel_refuses(rt: HostRuntime) -> Result<(), Fail> {
    start_up_refuses(&rt, SlotStore::new(), DeadlineOrder)?;
    start_up_refuses(&rt, SlotStore::new(), LevelOrder)?;
    start_up_refuses(&rt, PackedStore::new(), DeadlineOrder)?;
    start_up_refuses(&rt, PackedStore::new(), LevelOrder)
}

#[test]
fn a_full_slot_store_refuses(rt: HostRuntime) {
    let kinds = ["slots by deadline", "slots by level"];
    by_both_orders(&rt, kinds, SlotStore::new, &SLOTS_FULL);
}

#[test]
fn a_full_packed_store_refuses(rt: HostRuntime) {
    let kinds = ["packed by deadline", "packed by level"];
    by_both_orders(&rt, kinds, PackedStore::new, &MEMORY_FULL);
}

#[test]
fn the_smaller_deadline_goes_before(rt: HostRuntime) {
    by_deadline(&rt, &DEADLINE_TURNS);
}

#[test]
fn the_smaller_level_goes_before(rt: HostRuntime) {
    by_level(&rt, &LEVEL_TURNS);
}
