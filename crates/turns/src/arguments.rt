// The command line of a program that counts: the kind of store, what each turn does, how much stands by, the turns.
ghost use Rattle.std.specs.Prelude.{IfOk, IfErr, Some, codes};
ghost use Rattle.std.specs.Vec.Iter.{into_iter_items};
ghost use Rattle.turns.specs.Line.{ReadsKind, ReadsNext, ReadsNone, Says, SaysTooLittle};

use anyhow::Context;
use std::env::Args;
use std::error::Error;
use std::fmt;
use std::str::FromStr;

#[derive(Drop)]
pub struct Arguments<T, N> {
    pub kind: StoreKind,
    // What each turn does.
    pub turn: T,
    // How many messages or tasks stand by.
    pub beside: N,
    pub turns: u32,
}

#[derive(Clone, Copy, Debug, PartialEq, Eq)]
pub enum StoreKind {
    Slot,
    Packed,
}

// A word that names no kind of store.
#[derive(Clone, Copy, Debug, PartialEq, Eq)]
pub struct NoSuchStore;

// A word that names no turn.
#[derive(Clone, Copy, Debug, PartialEq, Eq)]
pub struct NoSuchTurn;

impl FromStr for StoreKind {
    type Err = NoSuchStore;

    ghost from_str_gives = { ReadsKind };

    fn from_str(word: &str) -> Result<StoreKind, NoSuchStore> {
        match word {
            "slot" => Ok(StoreKind::Slot),
            "packed" => Ok(StoreKind::Packed),
            _ => Err(NoSuchStore),
        }
    }
}

impl fmt::Display for NoSuchStore {
    ghost output = { λ _. Some (codes "no such store") };

    fn fmt<W: fmt::Write>(&self, f: &mut fmt::Formatter<W>) -> fmt::Result {
        write!(f, "no such store")
    }
}

impl Error for NoSuchStore {}

impl fmt::Display for NoSuchTurn {
    ghost output = { λ _. Some (codes "no such turn") };

    fn fmt<W: fmt::Write>(&self, f: &mut fmt::Formatter<W>) -> fmt::Result {
        write!(f, "no such turn")
    }
}

impl Error for NoSuchTurn {}

// The next word, read as a value.
fn next_value<V: FromStr>(words: &mut Args, missing: &'static str) -> anyhow::Result<V>
where
    V::Err: Error,
    ensures ok { IfOk result (ReadsNext V.from_str_gives (into_iter_items words.old) (into_iter_items words.new)) }
    ensures err { IfErr result (λ _. ReadsNone V.from_str_gives (into_iter_items words.old)) }
{
    Ok(words.next().context(missing)?.as_str().parse::<V>()?)
}

impl<T: FromStr + Drop, N: FromStr + Drop> Arguments<T, N>
where
    T::Err: Error,
    N::Err: Error,
{
    // Reads a command line, past the program's name; `no_beside` is the error where it ends before that number.
    pub fn read(mut words: Args, no_beside: &'static str) -> anyhow::Result<Arguments<T, N>>
        ensures ok { IfOk result (λ a. Says T.from_str_gives N.from_str_gives ⟦<u32 as FromStr>⟧.from_str_gives (into_iter_items words) a.kind a.turn a.beside a.turns) }
        ensures err { IfErr result (λ _. SaysTooLittle T.from_str_gives N.from_str_gives ⟦<u32 as FromStr>⟧.from_str_gives (into_iter_items words)) }
    {
        let kind = words.nth(1).context("no kind of store")?;
        Ok(Arguments {
            turn: next_value(&mut words, "no turn")?,
            beside: next_value(&mut words, no_beside)?,
            turns: next_value(&mut words, "no number of turns")?,
            // Read last, so that a word that names no store is told only where all else is well.
            kind: kind.as_str().parse()?,
        })
    }
}
