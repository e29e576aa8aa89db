// What a start-up kernel refuses, by calls written out.
use art::{Order, Refusal};
use kernel::init_kernel;
use std::process::Abort;
use std::test::Fail;
use store::Store;

// Rows 4 to 7 before run, in the order of the table.
pub(crate) fn start_up_refuses<S: Store + Drop, O: Order + Drop>(
    rt: &impl Abort,
    store: S,
    order: O,
) -> Result<(), Fail> {
    let mut start = init_kernel(store, order, 7);
    start.create_task(63, 10, 31)?;
    start.create_mailbox(31, 16, 128)?;
    assert_eq!(rt;
        start.create_task(0, 1, 32),
        Err(Refusal::BadNumber { given: 0 })
    );
    assert_eq!(rt;
        start.create_task(63, 1, 32),
        Err(Refusal::BadLevel { given: 63 })
    );
    assert_eq!(rt;
        start.create_mailbox(31, 0, 1),
        Err(Refusal::BadShape { given: 31 })
    );
    assert_eq!(rt;
        start.create_mailbox(31, 1, 1),
        Err(Refusal::Taken { given: 31 })
    );
    assert_eq!(rt; start.run().running(), 63);
    Ok(())
}
