use super::*;
use std::test::Fail;

// Values worked by hand: the standard ring, one of 2 segments of 4 cells, and one that is too small.
#[test]
fn rings(rt: HostRuntime) -> Result<(), Fail> {
    let ring = Ring::standard();
    assert_eq!(rt; slot_of(ring, 4_095), 4_095);
    assert_eq!(rt; slot_of(ring, 4_096), 0);
    assert_eq!(rt; segment_of(ring, 4_095), 63);
    assert!(rt;
        room(ring, 0, 4_095),
        "the last cell of a ring that is empty"
    );
    assert!(rt; !room(ring, 0, 4_096), "no cell is left");
    assert!(rt; room(ring, 1, 4_096), "the first segment is given again");
    let small = Ring {
        segments: 2,
        cells: 4,
    };
    assert_eq!(rt; slot_of(small, 13), 5);
    assert_eq!(rt; segment_of(small, 13), 3);
    assert_eq!(rt; target(small, 13), 12);
    assert!(rt; !room(small, 1, 13), "segments 1 and 2 are kept");
    assert!(rt; room(small, 2, 13), "segments 2 and 3 are kept");
    let narrow = Ring {
        segments: 1,
        cells: 64,
    };
    assert!(rt; !narrow.is_valid(), "one segment");
    Ok(())
}
