//! Compares random streams, cut into pieces at random, with `decode` of the whole stream.

use crate::in_pieces::{Case, Cuts, Ends};
use crate::random::{HEADER, Heights, Random};
use pbm_core::trial::Pieces;
use std::alloc::Global;
use std::process::Abort;
use std::test::Fail;
use t85_core::Header;

/// Asserts that a stream has the same result in ten random cuts.
fn check(
    rt: &impl Abort,
    alloc: Global,
    stream: &[u8],
    random: &mut Random,
    ends: &mut Ends,
) -> Result<(), Fail> {
    let mut input = Pieces::new(stream, 4096, None);
    let header = Header::read(&mut input)?;
    let case = Case::new(alloc, header, input.rest)?;
    for _ in 0..10u32 {
        let mut cuts = Cuts::Random(random);
        assert!(rt;
            case.is_given(alloc, &mut cuts, ends)?,
            "{stream:?}: {:?}",
            case.whole
        );
    }
    let mut cuts = Cuts::Random(random);
    assert!(rt;
        case.is_fed(alloc, &mut cuts)?,
        "{stream:?} fed: {:?}",
        case.whole
    );
    assert!(rt;
        case.is_fed(alloc, &mut Cuts::Each)?,
        "{stream:?} fed by bytes: {:?}",
        case.whole
    );
    let mut cuts = Cuts::Random(random);
    assert!(rt;
        case.is_given_again(alloc, &mut cuts)?,
        "{stream:?} from numbers: {:?}",
        case.whole
    );
    Ok(())
}

/// The number of streams in a test: each has a limited time, also on a busy machine.
const STREAMS: u32 = 1250;

/// Asserts the results of streams whose height is the header's.
fn check_sound(rt: &impl Abort, alloc: Global, seed: u64) -> Result<(), Fail> {
    let mut random = Random::new(seed);
    let mut ends = Ends::NONE;
    for _ in 0..STREAMS {
        let stream = random.stream(alloc, Heights::Fixed)?;
        check(rt, alloc, &stream, &mut random, &mut ends)?;
    }
    assert!(rt; ends.cuts == 12_500 && ends.done == 12_500, "{ends:?}");
    Ok(())
}

#[test]
fn sound_streams(rt: HostRuntime) -> Result<(), Fail> {
    check_sound(&rt, rt.alloc(), 11)
}

#[test]
fn other_sound_streams(rt: HostRuntime) -> Result<(), Fail> {
    check_sound(&rt, rt.alloc(), 21)
}

/// Asserts the results of streams that announce a height, and mostly a greater one than the image has.
fn check_announced(rt: &impl Abort, alloc: Global, seed: u64) -> Result<(), Fail> {
    let mut random = Random::new(seed);
    let mut ends = Ends::NONE;
    for _ in 0..STREAMS {
        let stream = random.stream(alloc, Heights::Announced)?;
        check(rt, alloc, &stream, &mut random, &mut ends)?;
    }
    assert!(rt; ends.cuts == 12_500 && ends.done == 12_500, "{ends:?}");
    assert!(rt; ends.lower >= 10_000, "{ends:?}");
    Ok(())
}

#[test]
fn announced_streams(rt: HostRuntime) -> Result<(), Fail> {
    check_announced(&rt, rt.alloc(), 12)
}

#[test]
fn other_announced_streams(rt: HostRuntime) -> Result<(), Fail> {
    check_announced(&rt, rt.alloc(), 22)
}

/// Asserts the results of streams that end too early.
fn check_cut_short(rt: &impl Abort, alloc: Global, seed: u64) -> Result<(), Fail> {
    let mut random = Random::new(seed);
    let mut ends = Ends::NONE;
    for _ in 0..STREAMS {
        let mut stream = random.stream(alloc, Heights::Either)?;
        let body = stream.len().saturating_sub(HEADER);
        stream.truncate(HEADER.saturating_add(random.below(body)));
        check(rt, alloc, &stream, &mut random, &mut ends)?;
    }
    assert!(rt; ends.cuts == 12_500 && ends.early >= 7_500, "{ends:?}");
    Ok(())
}

#[test]
fn streams_cut_short(rt: HostRuntime) -> Result<(), Fail> {
    check_cut_short(&rt, rt.alloc(), 13)
}

#[test]
fn other_streams_cut_short(rt: HostRuntime) -> Result<(), Fail> {
    check_cut_short(&rt, rt.alloc(), 23)
}

/// Asserts the results of streams with one to three bytes changed, inserted or removed.
fn check_damaged(rt: &impl Abort, alloc: Global, seed: u64) -> Result<(), Fail> {
    let mut random = Random::new(seed);
    let mut ends = Ends::NONE;
    for _ in 0..STREAMS {
        let mut stream = random.stream(alloc, Heights::Either)?;
        random.damage(&mut stream)?;
        check(rt, alloc, &stream, &mut random, &mut ends)?;
    }
    assert!(rt; ends.cuts == 12_500 && ends.broken >= 2_500, "{ends:?}");
    Ok(())
}

#[test]
fn damaged_streams(rt: HostRuntime) -> Result<(), Fail> {
    check_damaged(&rt, rt.alloc(), 14)
}

#[test]
fn other_damaged_streams(rt: HostRuntime) -> Result<(), Fail> {
    check_damaged(&rt, rt.alloc(), 24)
}
