use frame_codec::{Back, Ending};
use leg_ledger::{Entering, Ledger, LegKey};
use pulse_base::PadBytes;
use std::test::Fail;

// A back that a client may resume.
fn resume(key: LegKey) -> Back {
    Back {
        client: key.client,
        request: key.request,
        leg: key.leg,
        program: 1,
        left: 0,
        cur: 4096,
        pad: PadBytes::of(&[7, 0]),
        ending: Ending::Resume,
    }
}

// Whether this reply is kept of a key.
fn has_reply(ledger: &Ledger, key: LegKey, back: &Back, region: u16) -> bool {
    match ledger.kept(key) {
        Some(reply) => reply.back == *back && reply.region == region,
        None => false,
    }
}

#[test]
fn keeps_a_reply(rt: HostRuntime) -> Result<(), Fail> {
    let mut ledger = Ledger::make(rt.alloc());
    let key = LegKey {
        client: 0,
        request: 0,
        leg: 0,
    };
    assert_eq!(rt; ledger.enter(key, 0), Entering::Entered);
    assert_eq!(rt; ledger.enter(key, 0), Entering::Running);
    assert!(rt; ledger.kept(key).is_none());
    assert!(rt; ledger.running(key));
    let back = resume(key);
    ledger.finish(key, back);
    assert!(rt; !ledger.running(key));
    assert_eq!(rt; ledger.enter(key, 0), Entering::Kept);
    for request in 1..101 {
        let other = LegKey { request, ..key };
        assert_eq!(rt;
            ledger.enter(other, 0),
            Entering::Entered,
            "request {request}"
        );
    }
    assert!(rt; has_reply(&ledger, key, &back, 0));
    Ok(())
}

#[test]
fn each_part_of_a_key_counts(rt: HostRuntime) -> Result<(), Fail> {
    let mut ledger = Ledger::make(rt.alloc());
    let keys = [
        (0, 0, 0),
        (1, 0, 0),
        (0, 1, 0),
        (0, 0, 1),
        (u16::MAX, u32::MAX, u32::MAX),
    ];
    for (client, request, leg) in keys {
        let key = LegKey {
            client,
            request,
            leg,
        };
        assert!(rt; !ledger.running(key));
        assert_eq!(rt; ledger.enter(key, client), Entering::Entered, "{key:?}");
        assert!(rt; ledger.running(key));
        let back = resume(key);
        ledger.finish(key, back);
        assert!(rt; has_reply(&ledger, key, &back, client), "{key:?}");
    }
    Ok(())
}
