//! An image with an announced height may end early, and may not be higher.

use crate::by_row::{Case, End};
use crate::random::{Kinds, Random, add};
use std::test::Fail;
use t85_core::Fault;

/// An image that ends early, with an announced height, gives the stream of the image of exactly its rows.
#[test]
fn fewer_rows_give_the_stream(rt: HostRuntime) -> Result<(), Fail> {
    let mut random = Random::new(2);
    let mut kinds = Kinds::NONE;
    for number in 0..3000u32 {
        let mut case = Case::random(rt.alloc(), &mut random)?;
        case.choices.announced = Some(random.height_from(case.height));
        case.height = random.between(1, case.image.size.height);
        let ran = case.run(rt.alloc(), 3, None)?;
        assert!(rt; ran.encoded.answer == Ok(()), "case {number}");
        assert!(rt; ran.end == End::Whole, "case {number}: {:?}", ran.end);
        assert!(rt; ran.written == ran.encoded.bytes, "case {number}");
        kinds.count(&ran.written)?;
    }
    assert!(rt; kinds.streams == 3000 && kinds.lowered >= 2500, "{kinds:?}");
    Ok(())
}

/// An announced height below the image's is rejected, as by `encode`, and nothing is written.
#[test]
fn refuses_a_low_height(rt: HostRuntime) -> Result<(), Fail> {
    let mut random = Random::new(4);
    let mut low = 0;
    for number in 0..500u32 {
        let mut case = Case::random(rt.alloc(), &mut random)?;
        case.choices.announced = Some(random.between(0, case.height.saturating_sub(1)));
        let ran = case.run(rt.alloc(), 3, None)?;
        assert!(rt;
            ran.encoded.answer == Err(Fault::AnnouncedLow),
            "case {number}"
        );
        assert!(rt;
            ran.end == End::Low && ran.written.is_empty(),
            "case {number}"
        );
        add(&mut low, true);
    }
    assert_eq!(rt; low, 500);
    Ok(())
}
