// Examples of what a store does, run over both kinds by the same functions.
#![tactic(auto)]

#[cfg(test)]
mod tests {
    use packed_store::PackedStore;
    use slot_store::SlotStore;
    use std::process::Abort;
    use std::test::Fail;
    use store::{Store, StoreFault, Units};

    // Puts three, drops the middle one, and reads the others back.
    fn keeps_the_others<S: Store>(rt: &impl Abort, s: &mut S) -> Result<(), Fail> {
        let mut buffer = [9u8; 8];
        s.put(7, b"seven")?;
        s.put(8, b"eighth")?;
        s.put(4294967295, b"last")?;
        s.discard(8)?;
        assert_eq!(rt;
            s.copy(8, &mut buffer),
            Err(StoreFault::NotHeld { message: 8 })
        );
        assert_eq!(rt; s.discard(8), Err(StoreFault::NotHeld { message: 8 }));
        assert_eq!(rt; s.copy(4294967295, &mut buffer)?, 4);
        assert_eq!(rt; buffer, *b"last\x09\x09\x09\x09");
        assert_eq!(rt; s.copy(7, &mut buffer)?, 5);
        assert_eq!(rt; buffer, *b"seven\x09\x09\x09");
        Ok(())
    }

    // Each refusal, tried in the order of the table, and nothing changed by it.
    fn refuses<S: Store>(rt: &impl Abort, s: &mut S) -> Result<(), Fail> {
        let long = [1u8; 129];
        s.put(7, b"seven")?;
        let used = s.used();
        assert_eq!(rt; s.put(7, b""), Err(StoreFault::BadLength { message: 7 }));
        assert_eq!(rt; s.put(7, &long), Err(StoreFault::BadLength { message: 7 }));
        assert_eq!(rt; s.put(7, b"x"), Err(StoreFault::Held { message: 7 }));
        let mut buffer = [9u8; 4];
        assert_eq!(rt;
            s.copy(7, &mut buffer),
            Err(StoreFault::Cramped { message: 7 })
        );
        assert_eq!(rt; buffer, [9; 4]);
        assert_eq!(rt;
            s.copy(6, &mut buffer),
            Err(StoreFault::NotHeld { message: 6 })
        );
        assert_eq!(rt; buffer, [9; 4]);
        assert_eq!(rt; s.used(), used);
        Ok(())
    }

    // The longest message is 128 bytes, and comes back whole.
    fn takes_the_longest<S: Store>(rt: &impl Abort, s: &mut S) -> Result<(), Fail> {
        let mut long = [5u8; 128];
        long[0] = 1;
        long[127] = 2;
        s.put(0, &long)?;
        let mut buffer = [0u8; 130];
        assert_eq!(rt; s.copy(0, &mut buffer)?, 128);
        assert_eq!(rt; &buffer[0..128], &long[..]);
        assert_eq!(rt; &buffer[128..130], &[0, 0][..]);
        s.clear();
        assert_eq!(rt; s.used(), 0);
        assert_eq!(rt; s.discard(0), Err(StoreFault::NotHeld { message: 0 }));
        Ok(())
    }

    #[test]
    fn slots_keep_the_others(rt: HostRuntime) -> Result<(), Fail> {
        let mut s = SlotStore::new();
        keeps_the_others(&rt, &mut s)?;
        assert_eq!(rt; s.used(), 2);
        Ok(())
    }

    #[test]
    fn packed_keeps_the_others(rt: HostRuntime) -> Result<(), Fail> {
        let mut s = PackedStore::new();
        keeps_the_others(&rt, &mut s)?;
        assert_eq!(rt; s.used(), 5 + 16 + 4 + 16);
        Ok(())
    }

    #[test]
    fn both_refuse(rt: HostRuntime) -> Result<(), Fail> {
        refuses(&rt, &mut SlotStore::new())?;
        refuses(&rt, &mut PackedStore::new())
    }

    #[test]
    fn both_take_the_longest(rt: HostRuntime) -> Result<(), Fail> {
        takes_the_longest(&rt, &mut SlotStore::new())?;
        takes_the_longest(&rt, &mut PackedStore::new())
    }

    // 28 messages of 128 bytes leave 64 units: 48 bytes fit, 49 do not.
    #[test]
    fn packed_fills_to_the_last_unit(rt: HostRuntime) -> Result<(), Fail> {
        let mut s = PackedStore::new();
        let long = [1u8; 128];
        for n in 0..28 {
            s.put(n, &long)?;
        }
        assert_eq!(rt; s.used(), 4032);
        let units = Units {
            wanted: 65,
            free: 64,
        };
        assert_eq!(rt;
            s.put(100, &long[0..49]),
            Err(StoreFault::StoreFull {
                message: 100,
                units,
            })
        );
        s.put(100, &long[0..48])?;
        assert_eq!(rt; s.used(), 4096);
        Ok(())
    }

    // Two short messages are dropped in the middle, and a longer one takes their room.
    #[test]
    fn packed_serves_freed_room(rt: HostRuntime) -> Result<(), Fail> {
        let mut s = PackedStore::new();
        let long = [1u8; 128];
        for n in 0..60 {
            s.put(n, &long[0..52])?;
        }
        assert_eq!(rt; s.used(), 4080);
        s.discard(20)?;
        s.discard(40)?;
        s.put(60, &long[0..120])?;
        let mut buffer = [0u8; 120];
        assert_eq!(rt; s.copy(60, &mut buffer)?, 120);
        assert_eq!(rt; &buffer[..], &long[0..120]);
        assert_eq!(rt; s.copy(59, &mut buffer)?, 52);
        assert_eq!(rt; s.used(), 4080);
        Ok(())
    }

    // The 65th message is refused, and taken after one drop.
    #[test]
    fn slots_take_64(rt: HostRuntime) -> Result<(), Fail> {
        let mut s = SlotStore::new();
        for n in 0..64 {
            s.put(n, b"order")?;
        }
        let units = Units { wanted: 1, free: 0 };
        assert_eq!(rt;
            s.put(64, b"order"),
            Err(StoreFault::StoreFull { message: 64, units })
        );
        s.discard(13)?;
        s.put(64, b"order")?;
        assert_eq!(rt; s.used(), 64);
        Ok(())
    }

    #[test]
    fn faults_print(rt: HostRuntime) -> Result<(), Fail> {
        let heap = rt.alloc();
        let units = Units { wanted: 1, free: 0 };
        let full = StoreFault::StoreFull { message: 7, units };
        assert_eq!(rt;
            format!(in heap; "{full}")?.as_str(),
            "refused 20 STORE_FULL layer=store place=7 wanted=1 free=0"
        );
        let held = StoreFault::Held { message: 9 };
        assert_eq!(rt;
            format!(in heap; "{held}")?.as_str(),
            "refused 18 HELD layer=store place=9"
        );
        Ok(())
    }
}
