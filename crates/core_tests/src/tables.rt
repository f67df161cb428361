use pulse_base::Memory;
use range_table::{MEMORY_END, RegionSpan, Regions, Table, TableFault};
use std::alloc::Global;
use std::test::Fail;

// Regions by base and length, which may be read and not written.
fn regions(alloc: Global, spans: &[(u64, u64)]) -> Result<Regions, Memory> {
    let mut list = Regions::new(alloc);
    for (base, len) in spans {
        list.push(RegionSpan {
            base: *base,
            len: *len,
            read: true,
            write: false,
        })?;
    }
    Ok(list)
}

// The fault of a list of regions, if it has one.
fn fault_of(alloc: Global, spans: &[(u64, u64)]) -> Result<Option<TableFault>, Memory> {
    Ok(Table::new(regions(alloc, spans)?).err())
}

#[test]
fn first_faults(rt: HostRuntime) -> Result<(), Fail> {
    let cases: [(&[(u64, u64)], Option<TableFault>); 13] = [
        (&[], None),
        (&[(0, 16), (16, 16)], None),
        (&[(MEMORY_END - 16, 16)], None),
        (&[(MEMORY_END - 16, 17)], Some(TableFault::Range(0))),
        (&[(u64::MAX, u64::MAX)], Some(TableFault::Range(0))),
        (&[(u64::MAX, 0)], Some(TableFault::Empty(0))),
        (&[(0, 16), (32, 0)], Some(TableFault::Empty(1))),
        (&[(0, 16), (15, 1)], Some(TableFault::Overlap(0, 1))),
        (&[(8, 8), (0, 32)], Some(TableFault::Overlap(0, 1))),
        (
            &[(64, 8), (16, 8), (0, 16), (0, 72)],
            Some(TableFault::Overlap(0, 3)),
        ),
        (
            &[(64, 8), (16, 8), (0, 64)],
            Some(TableFault::Overlap(1, 2)),
        ),
        (
            &[(0, 16), (8, 16), (40, 0)],
            Some(TableFault::Overlap(0, 1)),
        ),
        (&[(40, 0), (0, 16), (8, 16)], Some(TableFault::Empty(0))),
    ];
    for (spans, want) in cases {
        assert_eq!(rt; fault_of(rt.alloc(), spans)?, want, "{spans:?}");
    }
    Ok(())
}

#[test]
fn at_most_64_regions(rt: HostRuntime) -> Result<(), Fail> {
    for (count, want) in [(64, None), (65, Some(TableFault::TooMany))] {
        let mut spans = Vec::new(rt.alloc());
        for i in 0..count {
            spans.push((16 * (count - i), 16))?;
        }
        assert_eq!(rt; fault_of(rt.alloc(), &spans)?, want, "{count} regions");
    }
    Ok(())
}

#[test]
fn finds_the_region_that_holds_a_span(rt: HostRuntime) -> Result<(), Fail> {
    let list = regions(
        rt.alloc(),
        &[(0x3000, 0x100), (0x1010, 0x10), (0x1000, 0x10)],
    )?;
    let table = match Table::new(list) {
        Ok(table) => table,
        Err(_) => return Err("these regions make a table".into()),
    };
    assert_eq!(rt; table.len(), 3);
    assert!(rt; !table.is_empty());
    assert_eq!(rt; table.span_of(1).base, 0x1010);
    let cases = [
        (0x0fff, 1, None),
        (0x1000, 1, Some(2)),
        (0x1008, 8, Some(2)),
        (0x1009, 8, None),
        (0x100f, 2, None),
        (0x1000, 32, None),
        (0x1010, 16, Some(1)),
        (0x101f, 1, Some(1)),
        (0x1020, 1, None),
        (0x2fff, 2, None),
        (0x3000, 256, Some(0)),
        (0x3000, 257, None),
        (0x3100, 1, None),
        (u64::MAX, u16::MAX, None),
    ];
    for (p, size, want) in cases {
        assert!(rt; size > 0);
        assert_eq!(rt; table.find(p, size), want, "{size} bytes at {p}");
    }
    Ok(())
}
