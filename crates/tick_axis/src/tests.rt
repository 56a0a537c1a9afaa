use super::*;
use std::test::Fail;

#[test]
fn marks_an_axis(rt: HostRuntime) -> Result<(), Fail> {
    let scale = Scale {
        left: 96,
        width: 1160,
        first: 0,
        last: 103,
    };
    let marks = scale.marks(rt.alloc())?;
    assert_eq!(rt; marks.as_slice(), [0, 20, 40, 60, 80, 100].as_slice());
    assert_eq!(rt; scale.base(), 0);
    assert_eq!(rt; scale.place(103), 1256);
    Ok(())
}

#[test]
fn writes_groups(rt: HostRuntime) -> Result<(), Fail> {
    let mut text = Vec::new(rt.alloc());
    push_grouped(&mut text, 129_856_793)?;
    assert_eq!(rt; text.as_slice(), b"129 856 793".as_slice());
    Ok(())
}
