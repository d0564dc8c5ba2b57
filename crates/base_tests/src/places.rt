use four_state::Vec4;
use std::test::Fail;
use store_api::{Loc, Val};

#[test]
fn a_place_is_its_own_alone(rt: HostRuntime) -> Result<(), Fail> {
    for (one, other, same) in [(0, 0, true), (7, 7, true), (0, 1, false), (1, 0, false)] {
        let place = Loc::Global(one);
        assert_eq!(rt;
            place.is_same(&Loc::Global(other)),
            same,
            "at {one} and {other}"
        );
        assert_eq!(rt; place.copy()?, place);
        assert_eq!(rt; Loc::Sample(one).is_same(&Loc::Sample(other)), same);
        assert!(rt; !place.is_same(&Loc::Sample(other)));
    }
    Ok(())
}

#[test]
fn a_copied_value_has_the_same_bits(rt: HostRuntime) -> Result<(), Fail> {
    let bits = Vec4::new(4, 0b0110, 0b1000).expect(&rt, "the words fit the width");
    let Val::Bits(copied) = Val::Bits(bits).copy()?;
    assert_eq!(rt; copied, bits);
    Ok(())
}
