use super::*;

#[test]
fn extends_beside_the_newest(rt: HostRuntime) {
    for (newest, wire, want) in [
        (Some(65_536), 65_535, Some(65_535)), // one back, over the wrap
        (Some(131_070), 2, Some(131_074)), // four ahead, over the wrap
        (Some(65_536), 32_768, None), // just half of the space away
        (None, 1, Some(65_537)), // the first
        (None, 0, Some(65_536)),
    ] {
        let mut extender = Extender::new();
        if let Some(newest) = newest {
            extender.accept(newest);
        }
        assert_eq!(rt; extender.extend(wire), want, "{wire} after {newest:?}");
    }
}

#[test]
fn keeps_the_greater(rt: HostRuntime) {
    let mut extender = Extender::new();
    assert_eq!(rt; extender.newest(), None);
    for (taken, want) in [(65_540, 65_540), (65_538, 65_540), (65_541, 65_541)] {
        extender.accept(taken);
        assert_eq!(rt; extender.newest(), Some(want), "after {taken}");
    }
}

#[test]
fn converts_what_an_allocation_answers(rt: HostRuntime) -> Result<(), NoMemory> {
    let mut numbers = Vec::new(rt.alloc());
    numbers.push(1u8)?;
    let copy = numbers.clone()?;
    assert_eq!(rt; copy.as_slice(), &[1][..]);
    Ok(())
}

#[test]
fn keeps_numbers_in_order(rt: HostRuntime) -> Result<(), NoMemory> {
    let mut numbers = Numbers::new(rt.alloc());
    assert_eq!(rt; numbers.as_slice(), &[][..]);
    // the greatest number there is, then smaller ones, one of them twice
    for number in [18_446_744_073_709_551_615, 65_537, 65_537, 0] {
        numbers.push(number)?;
    }
    let want = [18_446_744_073_709_551_615, 65_537, 65_537, 0];
    assert_eq!(rt; numbers.as_slice(), &want[..]);
    Ok(())
}

#[test]
fn extends_pictures_beside_the_newest(rt: HostRuntime) {
    for (newest, wire, want) in [
        (None, 0, 32_768), // the first
        (Some(65_535), 0, 65_536), // one ahead, over the wrap
        (Some(65_536), 32_767, 65_535), // one back, over the wrap
        (Some(65_536), 16_383, 81_919), // the farthest ahead
        (Some(65_536), 16_384, 49_152), // just half of the space away
    ] {
        let mut pictures = Pictures::new();
        if let Some(newest) = newest {
            pictures.accept(newest);
        }
        assert_eq!(rt; pictures.extend(wire), want, "{wire} after {newest:?}");
    }
}

#[test]
fn keeps_the_greater_picture(rt: HostRuntime) {
    let mut pictures = Pictures::new();
    assert_eq!(rt; pictures.newest(), None);
    for (taken, want) in [(32_770, 32_770), (32_769, 32_770), (32_771, 32_771)] {
        pictures.accept(taken);
        assert_eq!(rt; pictures.newest(), Some(want), "after {taken}");
    }
}

#[test]
fn steps_over_the_ends_of_an_index(rt: HostRuntime) {
    for (index, next) in [(0, 1), (254, 255), (255, 0)] {
        assert_eq!(rt; next8(index), next);
        assert_eq!(rt; before8(next), index);
    }
}
