//! Lines that an independent program made.
use super::*;
use std::test::Fail;

fn line(client: u32, kind: Kind, key: u32, value: u32, start: u64, finish: u64) -> Line {
    Line {
        client,
        kind,
        key,
        value,
        start,
        finish,
    }
}

#[test]
fn makes_twelve_lines_of_three_keys(rt: HostRuntime) -> Result<(), Fail> {
    let lines = gen_history(rt.alloc(), 7, 12, 3)?;
    let expected = [
        line(1, Kind::Write, 2, 1, 10, 18),
        line(2, Kind::Write, 0, 2, 20, 35),
        line(3, Kind::Write, 2, 3, 30, 52),
        line(4, Kind::Write, 0, 4, 40, 69),
        line(5, Kind::Read, 2, 3, 50, 86),
        line(6, Kind::Write, 0, 6, 60, 63),
        line(7, Kind::Write, 1, 7, 70, 80),
        line(0, Kind::Read, 2, 3, 80, 97),
        line(1, Kind::Write, 0, 9, 90, 114),
        line(2, Kind::Read, 2, 3, 100, 131),
        line(3, Kind::Write, 2, 11, 110, 148),
        line(4, Kind::Write, 0, 12, 120, 125),
    ];
    assert_eq!(rt; lines.as_slice(), expected.as_slice());
    Ok(())
}

#[test]
fn makes_four_lines_of_the_greatest_seed(rt: HostRuntime) -> Result<(), Fail> {
    let lines = gen_history(rt.alloc(), u64::MAX, 4, 5)?;
    let expected = [
        line(1, Kind::Write, 3, 1, 10, 18),
        line(2, Kind::Write, 3, 2, 20, 35),
        line(3, Kind::Write, 4, 3, 30, 52),
        line(4, Kind::Write, 0, 4, 40, 69),
    ];
    assert_eq!(rt; lines.as_slice(), expected.as_slice());
    Ok(())
}
