// Examples of the rules: the edges as theorems, and the printed forms as tests.
#![tactic(auto)]

ghost use Rattle.art_examples.specs.Edges.{Edges};

// Every edge stands, by the rules of the crate `art`.
pub fn edges_stand()
    ensures { Edges }
{}

#[cfg(test)]
mod tests {
    use art::{Answer, Counts, Refusal, Status};
    use std::fmt::Display;
    use std::process::Abort;
    use std::test::Fail;
    use store::{StoreFault, Units};

    fn prints<D: Display + Drop>(
        rt: &(impl Abort + AllocGlobal),
        value: D,
        text: &str,
    ) -> Result<(), Fail> {
        let printed = format!(in rt.alloc(); "{value}")?;
        assert_eq!(rt; printed.as_str(), text);
        Ok(())
    }

    // One of each layer, and each place.
    #[test]
    fn refusals_print(rt: HostRuntime) -> Result<(), Fail> {
        let cases = [
            (
                Refusal::AnswerDue { task: 5 },
                "refused 1 ANSWER_DUE layer=kernel place=5",
            ),
            (
                Refusal::BadShape { given: 31 },
                "refused 6 BAD_SHAPE layer=kernel place=31",
            ),
            (
                Refusal::NoMailbox { mailbox: 3 },
                "refused 8 NO_MAILBOX layer=mailbox place=3",
            ),
            (
                Refusal::ShortBuffer { mailbox: 0 },
                "refused 11 SHORT_BUFFER layer=mailbox place=0",
            ),
            (
                Refusal::ShortCollect { task: 63 },
                "refused 11 SHORT_BUFFER layer=kernel place=63",
            ),
            (
                Refusal::NumbersSpent { task: 1 },
                "refused 16 NUMBERS_SPENT layer=kernel place=1",
            ),
        ];
        for (refusal, text) in cases {
            prints(&rt, refusal, text)?;
        }
        Ok(())
    }

    #[test]
    fn faults_of_a_store_travel_whole(rt: HostRuntime) -> Result<(), Fail> {
        let units = Units { wanted: 1, free: 0 };
        let full = StoreFault::StoreFull { message: 71, units };
        let text = "refused 20 STORE_FULL layer=store place=71 wanted=1 free=0";
        prints(&rt, full, text)?;
        prints(&rt, Refusal::from(full), text)?;
        let held = StoreFault::Held {
            message: 4294967295,
        };
        let text = "refused 18 HELD layer=store place=4294967295";
        prints(&rt, held, text)?;
        prints(&rt, Refusal::from(held), text)
    }

    #[test]
    fn answers_print(rt: HostRuntime) -> Result<(), Fail> {
        let blocked = Answer {
            status: Status::Blocked,
            message: None,
            length: None,
            displaced: None,
        };
        prints(&rt, blocked, "BLOCKED")?;
        let late = Answer {
            status: Status::DeadlineReached,
            message: Some(8),
            ..blocked
        };
        prints(&rt, late, "DEADLINE_REACHED message=8")?;
        let brought = Answer {
            status: Status::Ok,
            message: Some(7),
            length: Some(2),
            ..blocked
        };
        prints(&rt, brought, "OK message=7 length=2")?;
        let displacing = Answer {
            status: Status::Ok,
            message: Some(9),
            displaced: Some(7),
            ..blocked
        };
        prints(&rt, displacing, "OK message=9 displaced=7")
    }

    // Five messages: one withdrawn, three handed over, one still queued.
    #[test]
    fn counts_print(rt: HostRuntime) -> Result<(), Fail> {
        let mut counts = Counts::none();
        for _ in 0..5 {
            counts.accept();
        }
        counts.withdraw();
        for _ in 0..3 {
            counts.hand_over();
        }
        prints(
            &rt,
            counts,
            "accepted=5 queued=1 handed_over=3 withdrawn=1 displaced=0",
        )?;
        counts.displace();
        prints(
            &rt,
            counts,
            "accepted=5 queued=0 handed_over=3 withdrawn=1 displaced=1",
        )
    }
}
