// The start-up kernel.
ghost use Rattle.std.specs.Prelude.{[]};
ghost use Rattle.art.specs.Record.{Run};
ghost use Rattle.art.specs.Rules.{Silent};
ghost use Rattle.kernel.specs.Takes.{Begins, LawfulFromTheStart, LawfulWith, Takes};

use crate::kernels::{Kernel, StartUp, Started, Starting};
use art::Order;
use store::Store;

// Clears the store and gives a start-up kernel with task 0 alone and no mailbox.
pub fn init_kernel<S: Store, O: Order>(store: S, order: O, first: u32) -> StartUp<S, O>
    ensures begins { Begins S.Store O.Order first result.engine }
    ensures lawful { LawfulFromTheStart S.Store O.Order first }
{
    Kernel {
        engine: time_calls::init(store, order, first),
        stage: Starting,
    }
}

impl<S: Store, O: Order> Kernel<S, O, Starting> {
    // Sets the counter to 0 and gives the running kernel.
    pub fn run(self) -> Kernel<S, O>
        ensures takes { Takes S.Store O.Order Run self.engine Silent [] result.engine }
        ensures lawful { LawfulWith S.Store O.Order Run self.engine }
    {
        let Kernel {
            mut engine,
            stage: Starting,
        } = self;
        time_calls::run(&mut engine);
        Kernel {
            engine,
            stage: Started,
        }
    }
}
