//! A row encoder reports a write that fails, and is closed.

use crate::by_row::{Case, End};
use crate::random::{Random, add};
use std::test::Fail;

/// The number of runs by their end.
#[derive(Clone, Copy, Debug)]
struct Ends {
    head: u32,
    row: u32,
    end: u32,
    whole: u32,
}

impl Ends {
    fn count(&mut self, end: End) {
        add(&mut self.head, end == End::HeadFails);
        add(&mut self.row, end == End::RowFails);
        add(&mut self.end, end == End::EndFails);
        add(&mut self.whole, end == End::Whole);
    }
}

/// If a write fails, exactly the bytes before it are written, and the encoder is closed.
#[test]
fn failing_writes(rt: HostRuntime) -> Result<(), Fail> {
    let mut random = Random::new(3);
    let mut ends = Ends {
        head: 0,
        row: 0,
        end: 0,
        whole: 0,
    };
    for number in 0..4000u32 {
        let mut case = Case::random(rt.alloc(), &mut random)?;
        if random.is_one_in(2) {
            case.choices.announced = Some(random.height_from(case.height));
        }
        let whole = case.run(rt.alloc(), 1, None)?.encoded.bytes;
        let stays = random.below(whole.len());
        let ran = case.run(rt.alloc(), 1, Some((stays as u64).saturating_add(1)))?;
        assert!(rt;
            whole.as_slice().get(..stays) == Some(ran.written.as_slice()),
            "case {number}"
        );
        assert!(rt;
            !matches!(&ran.end, End::Wrong(_)),
            "case {number}: {:?}",
            ran.end
        );
        ends.count(ran.end);
    }
    assert!(rt;
        ends.head >= 100 && ends.row >= 1000 && ends.end >= 100,
        "{ends:?}"
    );
    assert_eq!(rt; ends.whole, 0);
    Ok(())
}
