// Turns taken over and over.
ghost use Rattle.std.specs.Prelude.{◌≡◌, ◌+◌, ◌<◌, Result, cond, is_ok};
ghost use Rattle.turns.specs.Turns.{TakesTurns};

// Takes as many turns, and answers how many of them were accepted.
pub fn repeat<T: Drop, E: Drop, F: FnMut() -> Result<T, E>>(turns: u32, mut take: F) -> u32
    requires { F.IsAlwaysCallable take }
    ensures { (last : F) × TakesTurns F.step take turns result last }
{
    let mut accepted = 0;
    for _turn in 0..turns {
        take_one(&mut take, &mut accepted);
    }
    accepted
}

// One turn, counted where it is accepted. Never inlined, and the count goes from turn to turn in memory, so that the
// compiler can neither make one of many turns nor let one stand for all.
#[inline(never)]
fn take_one<T: Drop, E: Drop, F: FnMut() -> Result<T, E>>(take: &mut F, accepted: &mut u32)
    requires callable { F.IsAlwaysCallable take.old }
    requires room { accepted.old < 4294967295 }
    ensures taken { (answer : Result T E) × F.step take.old answer take.new × (accepted.new ≡ accepted.old + cond (is_ok answer) 1 0) }
    ensures goes_on { F.IsAlwaysCallable take.new }
{
    *accepted += u32::from(take().is_ok());
}
