use clfs_lsn::{Lsn, Place, Shape};
use clfs_space::{free_sectors, growth, least_containers};

#[test]
fn worked_rows(rt: HostRuntime) {
    let shape = Shape {
        block_sectors: 2,
        container_sectors: 8,
    };
    let hold = Lsn::of_number(0x1_0000_0000);
    let fresh = Place {
        container: 1,
        offset: 0,
        used: 0,
        records: 0,
    };
    assert!(rt; free_sectors(&shape, &fresh, hold, 2) == 14);
    let place = Place {
        container: 2,
        offset: 2048,
        used: 1008,
        records: 1,
    };
    assert!(rt; free_sectors(&shape, &place, hold, 2) == 1);
    for (rate, maximum, wanted, grown) in [
        (2, 6, 2, Some(4)),
        (2, 3, 2, None),
        (2, 6, 16, Some(6)),
        (3, 6, 16, Some(5)),
    ] {
        assert!(rt; growth(&shape, &place, hold, 2, rate, maximum, wanted) == grown);
    }
    assert!(rt; least_containers(&shape, &place, hold, 4, 8) == 3);
    assert!(rt; least_containers(&shape, &place, hold, 4, 9) == 4);

    // The last container has no next one, however many containers there are.
    let last = Place {
        container: u32::MAX,
        ..fresh
    };
    assert!(rt; free_sectors(&shape, &last, Lsn::of_number(0xffff_ffff_0000_0000), 256) == 7);
}
