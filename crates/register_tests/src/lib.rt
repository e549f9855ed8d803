//! Tests of the register at the ends of every range.
#![tactic(auto)]

#[cfg(test)]
mod tests {
    use refusal::Refusal;
    use register::Core;

    const STAGES: [i32; 16] = [
        -20000, -1000, -999, -1, 0, 1, 2, 3, 10, 100, 1000, 2000, 3000, 40000, 59999, 60000,
    ];

    const FLOWS: [u32; 16] = [
        0, 0, 1, 1, 2, 3, 5, 8, 13, 21, 34, 55, 89, 1000000, 1999999999, 2000000000,
    ];

    /// What a new register answers to a publish.
    fn published(number: u16, stages: &[i32], flows: &[u32]) -> Result<(), Refusal> {
        let mut core = Core::new(7);
        core.publish(number, stages, flows)
    }

    #[test]
    fn numbers_at_their_ends(rt: HostRuntime) {
        assert_eq!(rt;
            published(0, &STAGES, &FLOWS),
            Err(Refusal::NumberOutOfRange)
        );
        assert_eq!(rt; published(1, &STAGES, &FLOWS), Ok(()));
        assert_eq!(rt; published(1024, &STAGES, &FLOWS), Ok(()));
        assert_eq!(rt;
            published(1025, &STAGES, &FLOWS),
            Err(Refusal::NumberOutOfRange)
        );
        assert_eq!(rt;
            published(65535, &STAGES, &FLOWS),
            Err(Refusal::NumberOutOfRange)
        );
        let mut core = Core::new(65535);
        assert_eq!(rt; core.withdraw(0), Err(Refusal::NumberOutOfRange));
        assert_eq!(rt; core.withdraw(1), Ok(()));
        assert_eq!(rt; core.withdraw(1024), Ok(()));
        assert_eq!(rt; core.withdraw(1025), Err(Refusal::NumberOutOfRange));
        assert_eq!(rt; core.withdraw(1), Ok(()));
        let mut room = [9u32; 1];
        assert_eq!(rt;
            core.convert(0, &[0], &mut room),
            Err(Refusal::NumberOutOfRange)
        );
        assert_eq!(rt;
            core.convert(1025, &[0], &mut room),
            Err(Refusal::NumberOutOfRange)
        );
        assert_eq!(rt; core.convert(1, &[0], &mut room), Err(Refusal::Withdrawn));
        assert_eq!(rt; core.convert(2, &[0], &mut room), Err(Refusal::NotInForce));
        assert_eq!(rt; room[0], 9);
    }

    #[test]
    fn points_at_their_ends(rt: HostRuntime) {
        assert_eq!(rt;
            published(5, &STAGES[..1], &FLOWS[..1]),
            Err(Refusal::NoLawfulCurve)
        );
        assert_eq!(rt; published(5, &STAGES[..2], &FLOWS[..2]), Ok(()));
        assert_eq!(rt; published(5, &STAGES, &FLOWS), Ok(()));
        assert_eq!(rt;
            published(5, &STAGES, &FLOWS[..15]),
            Err(Refusal::NoLawfulCurve)
        );
        assert_eq!(rt;
            published(5, &STAGES[..15], &FLOWS),
            Err(Refusal::NoLawfulCurve)
        );
        assert_eq!(rt; published(5, &[], &[]), Err(Refusal::NoLawfulCurve));
        let stages: [i32; 17] = [0, 1, 2, 3, 4, 5, 6, 7, 8, 9, 10, 11, 12, 13, 14, 15, 16];
        let flows: [u32; 17] = [0, 1, 2, 3, 4, 5, 6, 7, 8, 9, 10, 11, 12, 13, 14, 15, 16];
        assert_eq!(rt; published(5, &stages, &flows), Err(Refusal::NoLawfulCurve));
        assert_eq!(rt; published(5, &stages[..16], &flows[..16]), Ok(()));
    }

    #[test]
    fn stages_at_their_ends(rt: HostRuntime) {
        assert_eq!(rt; published(5, &[-20000, 60000], &[0, 1]), Ok(()));
        assert_eq!(rt;
            published(5, &[-20001, 60000], &[0, 1]),
            Err(Refusal::NoLawfulCurve)
        );
        assert_eq!(rt;
            published(5, &[-20000, 60001], &[0, 1]),
            Err(Refusal::NoLawfulCurve)
        );
        assert_eq!(rt; published(5, &[7, 8], &[0, 1]), Ok(()));
        assert_eq!(rt; published(5, &[7, 7], &[0, 1]), Err(Refusal::NoLawfulCurve));
        assert_eq!(rt; published(5, &[8, 7], &[0, 1]), Err(Refusal::NoLawfulCurve));
        assert_eq!(rt;
            published(5, &[1, 2, 2], &[0, 1, 2]),
            Err(Refusal::NoLawfulCurve)
        );
    }

    #[test]
    fn flows_at_their_ends(rt: HostRuntime) {
        assert_eq!(rt; published(5, &[0, 1], &[0, 2000000000]), Ok(()));
        assert_eq!(rt;
            published(5, &[0, 1], &[0, 2000000001]),
            Err(Refusal::NoLawfulCurve)
        );
        assert_eq!(rt;
            published(5, &[0, 1], &[2000000001, 2000000001]),
            Err(Refusal::NoLawfulCurve)
        );
        assert_eq!(rt; published(5, &[0, 1], &[6, 6]), Ok(()));
        assert_eq!(rt; published(5, &[0, 1], &[6, 5]), Err(Refusal::NoLawfulCurve));
        assert_eq!(rt;
            published(5, &[0, 1, 2], &[0, 6, 5]),
            Err(Refusal::NoLawfulCurve)
        );
    }

    #[test]
    fn a_full_table(rt: HostRuntime) {
        let mut core = Core::new(1);
        for n in 1..=32u16 {
            assert_eq!(rt; core.publish(n, &[0, 1], &[u32::from(n), 100]), Ok(()));
        }
        assert_eq!(rt;
            core.publish(33, &[0, 1], &[0, 1]),
            Err(Refusal::NoFreePlace)
        );
        assert_eq!(rt;
            core.publish(32, &[0, 1], &[0, 1]),
            Err(Refusal::AlreadyInForce)
        );
        assert_eq!(rt; core.withdraw(17), Ok(()));
        assert_eq!(rt; core.publish(17, &[0, 1], &[0, 1]), Err(Refusal::Withdrawn));
        assert_eq!(rt; core.publish(33, &[0, 1], &[77, 78]), Ok(()));
        assert_eq!(rt;
            core.publish(34, &[0, 1], &[0, 1]),
            Err(Refusal::NoFreePlace)
        );
        let mut flow = [0u32; 1];
        assert_eq!(rt; core.convert(33, &[0], &mut flow), Ok(()));
        assert_eq!(rt; flow[0], 77);
        assert_eq!(rt; core.convert(32, &[0], &mut flow), Ok(()));
        assert_eq!(rt; flow[0], 32);
        assert_eq!(rt; core.convert(17, &[0], &mut flow), Err(Refusal::Withdrawn));
        assert_eq!(rt; flow[0], 32);
    }

    #[test]
    fn refusals_in_order(rt: HostRuntime) {
        let mut core = Core::new(1);
        assert_eq!(rt; core.withdraw(9), Ok(()));
        assert_eq!(rt; core.publish(9, &[1], &[]), Err(Refusal::Withdrawn));
        assert_eq!(rt; core.publish(8, &[0, 1], &[3, 4]), Ok(()));
        assert_eq!(rt; core.publish(8, &[0], &[3]), Err(Refusal::NoLawfulCurve));
        assert_eq!(rt;
            core.publish(8, &[0, 1], &[3, 4]),
            Err(Refusal::AlreadyInForce)
        );
        let mut room = [5u32; 1];
        assert_eq!(rt; core.convert(8, &[0, 2], &mut room), Err(Refusal::TooShort));
        assert_eq!(rt;
            core.convert(8, &[2], &mut room),
            Err(Refusal::StageOffCurve)
        );
        assert_eq!(rt;
            core.convert(8, &[-1], &mut room),
            Err(Refusal::StageOffCurve)
        );
        assert_eq!(rt; room[0], 5);
    }

    #[test]
    fn conversions(rt: HostRuntime) {
        let mut core = Core::new(1);
        assert_eq!(rt; core.publish(3, &STAGES, &FLOWS), Ok(()));
        let mut flows = [4u32; 18];
        assert_eq!(rt; core.convert(3, &[], &mut flows), Ok(()));
        assert_eq!(rt; flows[0], 4);
        assert_eq!(rt; core.convert(3, &[], &mut flows[..0]), Ok(()));
        assert_eq!(rt; core.convert(3, &STAGES, &mut flows), Ok(()));
        assert_eq!(rt; &flows[..16], &FLOWS[..]);
        assert_eq!(rt; flows[16], 4);
        assert_eq!(rt; flows[17], 4);
        // between points, by hand: 21 + 13 * 450 / 900, 0 + 0, 89 + 999911 * 36999 / 37000, 1 + 1 * 0 / 1
        assert_eq!(rt;
            core.convert(3, &[550, -5000, 39999, -1], &mut flows),
            Ok(())
        );
        assert_eq!(rt; flows[0], 27);
        assert_eq!(rt; flows[1], 0);
        assert_eq!(rt; flows[2], 999972);
        assert_eq!(rt; flows[3], 1);
        assert_eq!(rt; flows[4], 2);
        assert_eq!(rt;
            core.convert(3, &[5, 60001], &mut flows),
            Err(Refusal::StageOffCurve)
        );
        assert_eq!(rt;
            core.convert(3, &[-20001, 5], &mut flows),
            Err(Refusal::StageOffCurve)
        );
        assert_eq!(rt; flows[0], 27);
    }

    #[test]
    fn looking_things_up(rt: HostRuntime) {
        let mut core = Core::new(12);
        assert_eq!(rt; core.station(), 12);
        assert_eq!(rt; core.serial(), 0);
        assert_eq!(rt; core.next_in_force(0), None);
        assert_eq!(rt; core.next_withdrawn(0), None);
        assert_eq!(rt; core.publish(1024, &[0, 1], &[3, 4]), Ok(()));
        assert_eq!(rt; core.publish(2, &[0, 1], &[3, 4]), Ok(()));
        assert_eq!(rt; core.withdraw(1024), Ok(()));
        assert_eq!(rt; core.withdraw(3), Ok(()));
        assert_eq!(rt; core.next_in_force(0), Some(2));
        assert_eq!(rt; core.next_in_force(2), None);
        assert_eq!(rt; core.next_withdrawn(0), Some(3));
        assert_eq!(rt; core.next_withdrawn(3), Some(1024));
        assert_eq!(rt; core.next_withdrawn(1024), None);
        assert!(rt; core.is_in_force(2));
        assert!(rt; !core.is_in_force(3));
        assert!(rt; core.is_withdrawn(3));
        assert!(rt; !core.is_withdrawn(0));
        assert!(rt; !core.is_withdrawn(1025));
    }
}
