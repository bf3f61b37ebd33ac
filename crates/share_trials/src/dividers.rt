use divide::{AnyDivider, DivideRefusal, Divider, Remainders, Running, weight_sum};
use refusals::Refusal;
use std::alloc::Global;
use std::process::Abort;
use std::test::Fail;

// What stands in the slice before a division: no share of the cases below.
const UNTOUCHED: u64 = 77;

// The divider's answer and what the slice of so many places holds afterwards.
fn check_divide<D: Divider>(
    rt: &impl Abort,
    heap: Global,
    divider: &D,
    total: u64,
    weights: &[u32],
    places: usize,
    answer: Result<(), DivideRefusal>,
    after: &[u64],
) -> Result<(), Fail> {
    let mut out = vec![in heap; UNTOUCHED; places]?;
    assert_eq!(rt; divider.divide(total, weights, out.as_mut_slice()), answer);
    assert_eq!(rt; out.as_slice(), after);
    Ok(())
}

// The same of both dividers, each by itself and as chosen at run time.
fn check_both(
    rt: &impl Abort,
    heap: Global,
    total: u64,
    weights: &[u32],
    by_remainders: &[u64],
    by_running: &[u64],
) -> Result<(), Fail> {
    let n = weights.len();
    check_divide(
        rt,
        heap,
        &Remainders,
        total,
        weights,
        n,
        Ok(()),
        by_remainders,
    )?;
    check_divide(
        rt,
        heap,
        &AnyDivider::Remainders,
        total,
        weights,
        n,
        Ok(()),
        by_remainders,
    )?;
    check_divide(rt, heap, &Running, total, weights, n, Ok(()), by_running)?;
    check_divide(
        rt,
        heap,
        &AnyDivider::Running,
        total,
        weights,
        n,
        Ok(()),
        by_running,
    )
}

fn check_refused(
    rt: &impl Abort,
    heap: Global,
    total: u64,
    weights: &[u32],
    places: usize,
    refusal: DivideRefusal,
) -> Result<(), Fail> {
    let untouched = vec![in heap; UNTOUCHED; places]?;
    let after = untouched.as_slice();
    check_divide(
        rt,
        heap,
        &Remainders,
        total,
        weights,
        places,
        Err(refusal),
        after,
    )?;
    check_divide(
        rt,
        heap,
        &Running,
        total,
        weights,
        places,
        Err(refusal),
        after,
    )
}

#[test]
fn shares(rt: HostRuntime) -> Result<(), Fail> {
    let heap = rt.alloc();
    check_both(&rt, heap, 100, &[1, 1, 1], &[34, 33, 33], &[33, 33, 34])?;
    check_both(&rt, heap, 10, &[3, 3, 1], &[4, 4, 2], &[4, 4, 2])?;
    // 1 1/4, 1 1/4, 2 2/4: the larger remainder comes first, whatever its place
    check_both(&rt, heap, 5, &[1, 1, 2], &[1, 1, 3], &[1, 1, 3])?;
    check_both(&rt, heap, 5, &[2, 1, 1], &[3, 1, 1], &[2, 1, 2])?;
    // a weight of 0 has nothing
    check_both(&rt, heap, 7, &[0, 2, 0, 2], &[0, 4, 0, 3], &[0, 3, 0, 4])?;
    check_both(&rt, heap, 0, &[5, 9], &[0, 0], &[0, 0])?;
    check_both(&rt, heap, 0, &[0, 0], &[0, 0], &[0, 0])?;
    check_both(&rt, heap, 0, &[], &[], &[])
}

#[test]
fn limits(rt: HostRuntime) -> Result<(), Fail> {
    let heap = rt.alloc();
    let limit = 4_000_000_000_000_000_000;
    check_both(&rt, heap, limit, &[1], &[limit], &[limit])?;
    check_both(
        &rt,
        heap,
        1_000_000_000,
        &[4_000_000_000],
        &[1_000_000_000],
        &[1_000_000_000],
    )?;
    check_both(
        &rt,
        heap,
        33,
        &[1; 32],
        &[
            2, 1, 1, 1, 1, 1, 1, 1, 1, 1, 1, 1, 1, 1, 1, 1, 1, 1, 1, 1, 1, 1, 1, 1, 1, 1, 1, 1, 1,
            1, 1, 1,
        ],
        &[
            1, 1, 1, 1, 1, 1, 1, 1, 1, 1, 1, 1, 1, 1, 1, 1, 1, 1, 1, 1, 1, 1, 1, 1, 1, 1, 1, 1, 1,
            1, 1, 2,
        ],
    )?;
    check_refused(
        &rt,
        heap,
        limit + 1,
        &[1],
        1,
        DivideRefusal::ProductTooLarge,
    )?;
    check_refused(
        &rt,
        heap,
        1_000_000_000,
        &[4_000_000_000, 1],
        2,
        DivideRefusal::ProductTooLarge,
    )?;
    check_refused(
        &rt,
        heap,
        u64::MAX,
        &[u32::MAX; 32],
        32,
        DivideRefusal::ProductTooLarge,
    )?;
    check_refused(&rt, heap, 5, &[0, 0], 2, DivideRefusal::NoWeight)?;
    check_refused(&rt, heap, 5, &[], 0, DivideRefusal::NoWeight)?;
    check_refused(&rt, heap, 1, &[1; 33], 33, DivideRefusal::ListLength)?;
    // a slice of another length, before the other refusals
    check_refused(&rt, heap, 5, &[0, 0], 3, DivideRefusal::ListLength)?;
    check_refused(&rt, heap, 5, &[1, 1], 1, DivideRefusal::ListLength)?;
    assert_eq!(rt; weight_sum(&[u32::MAX; 32]), Ok(137_438_953_440));
    assert_eq!(rt; weight_sum(&[0; 33]), Err(DivideRefusal::ListLength));
    assert_eq!(rt; DivideRefusal::ListLength.number(), 6);
    assert_eq!(rt; DivideRefusal::NoWeight.number(), 18);
    assert_eq!(rt; DivideRefusal::ProductTooLarge.number(), 19);
    Ok(())
}
