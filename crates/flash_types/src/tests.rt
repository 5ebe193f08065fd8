use super::*;
use std::test::*;

fn asked(rt: &HostRuntime, ids: &[u32]) -> Result<Ask, AskError> {
    let mut regions = Vec::new(rt.alloc());
    for id in ids {
        let epoch = Epoch {
            conf_ver: 1,
            version: 1,
        };
        let region = AskRegion {
            region: *id,
            epoch,
            index: 5,
        };
        if regions.push(region).is_err() {
            return Err(AskError::Memory);
        }
    }
    let all = HandleRange {
        low: i64::MIN,
        high: None,
    };
    Ask::new(10, regions, all)
}

#[test]
fn an_ask_has_1_to_64_regions_each_once(rt: HostRuntime) {
    let one = asked(&rt, &[1]).expect(&rt, "an ask of one region");
    assert_eq!(rt; one.ts(), 10);
    assert_eq!(rt; one.regions().len(), 1);
    assert!(rt; one.clip().holds(-5));
    assert!(rt; matches!(asked(&rt, &[]), Err(AskError::Empty)));
    assert!(rt; matches!(asked(&rt, &[9; 65]), Err(AskError::TooMany { count: 65 })));
    assert!(rt; matches!(asked(&rt, &[1, 1]), Err(AskError::Twice { region: 1 })));
    assert!(rt;
        matches!(
            asked(&rt, &[1, 2, 2, 1]),
            Err(AskError::Twice { region: 2 })
        )
    );
}

#[test]
fn a_range_has_its_low_end_and_not_its_high_end(rt: HostRuntime) {
    let range = HandleRange {
        low: -1,
        high: Some(7),
    };
    assert!(rt; range.holds(-1) && range.holds(6) && !range.holds(7) && !range.holds(-2));
}

#[test]
fn ranges_are_joined_parted_and_cut(rt: HostRuntime) {
    let low = HandleRange {
        low: -1,
        high: Some(7),
    };
    let high = HandleRange { low: 7, high: None };
    assert!(rt; high.touches(&low) && low.ends_at(7) && !high.meets(&low));
    let both = high.joined(&low);
    assert!(rt; both.low == -1 && both.high.is_none());
    assert!(rt; both.below(7) == low && both.starting_at(7) == high);
    assert!(rt; both.common(&low) == low && low.common(&high).is_empty());
    assert!(rt; HandleRange::all().holds(i64::MIN) && !HandleRange::all().is_empty());
}
