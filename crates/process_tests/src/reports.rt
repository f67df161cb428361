// A report with every part.

use pulse_base::{Answer, Answers, Bytes, FaultKind, Memory, Numbers, PadBytes, Trace, Traces};
use report_text::{OutRegion, OutRegions, Outcome, report};
use std::alloc::Global;
use std::test::Fail;

fn answers(alloc: Global) -> Result<Answers, Memory> {
    Answers::from_slice(
        alloc,
        &[
            Answer::Done {
                pad: PadBytes::of(&[0x62]),
                count: 1,
            },
            Answer::Fault {
                kind: FaultKind::NotReadable,
                cur: 4150,
                count: 0,
            },
            Answer::Spent { count: 6 },
            Answer::Silent,
            Answer::Unasked,
            Answer::Waiting,
        ],
    )
}

fn traces(alloc: Global) -> Result<Traces, Memory> {
    Traces::from_slice(
        alloc,
        &[
            Trace::Sent(0),
            Trace::Iterated {
                request: 0,
                sent: None,
            },
            Trace::Iterated {
                request: 10,
                sent: Some(2),
            },
            Trace::Waits(7),
        ],
    )
}

fn regions(alloc: Global) -> Result<OutRegions, Memory> {
    let mut regions = OutRegions::new(alloc);
    for shown in [true, false] {
        let bytes = Bytes::from_slice(alloc, b"abc")?;
        regions.push(OutRegion { shown, bytes })?;
    }
    Ok(regions)
}

const TEXT: &str = "pulse report 1
event 0 sent 0
event 1 iterated 0
event 2 iterated 10 sent 2
event 3 waits 7
order 0 10
request 0 done 1 62
request 1 fault not_readable 4150 0
request 2 spent 6
request 3 silent
request 4 unasked
request 5 open
region 0 hex 616263
region 1 sha256 ba7816bf8f01cfea414140de5dae2223b00361a396177a9cb410ff61f20015ad
end
";

#[test]
fn writes_each_line(rt: HostRuntime) -> Result<(), Fail> {
    let alloc = rt.alloc();
    let outcome = Outcome {
        trace: traces(alloc)?,
        order: Numbers::from_slice(alloc, &[0, 10])?,
        answers: answers(alloc)?,
        regions: regions(alloc)?,
    };
    let text = report(alloc, &outcome)?;
    assert_eq!(rt; text.as_slice(), TEXT.as_bytes());
    Ok(())
}
