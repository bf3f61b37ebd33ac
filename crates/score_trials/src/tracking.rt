use refusals::Refusal;
use score::{
    ClosedWindow, GatheringWindow, Signal, SignalRefusal, WindowRefusal, gather, tracking_errors,
};
use std::array;
use std::process::Abort;
use std::test::Fail;

// The same reading all along.
fn still(reading: i32) -> [i32; 150] {
    [reading; 150]
}

// Two readings, then 0.
fn swing(first: i32, second: i32) -> [i32; 150] {
    let mut readings = [0; 150];
    readings[0] = first;
    readings[1] = second;
    readings
}

// 10,000 and -10,000 by turns.
fn widest() -> [i32; 150] {
    array::from_fn(|place| if place % 2 == 0 { 10_000 } else { -10_000 })
}

// Reading k is 10 k.
fn ramp() -> [i32; 150] {
    array::from_fn(|place| 10 * (place as i32 + 1))
}

// Zeros, and one other reading at the end.
fn ending(last: i32) -> [i32; 150] {
    let mut readings = [0; 150];
    readings[149] = last;
    readings
}

fn check_mileage(
    rt: &impl Abort,
    previous: i32,
    readings: &[i32],
    answer: Result<(u32, i32), SignalRefusal>,
) {
    let signal = Signal { previous, readings };
    assert_eq!(rt; signal.mileage(), answer);
}

#[test]
fn signals(rt: HostRuntime) {
    check_mileage(&rt, 0, &swing(5_000, -5_000), Ok((20_000, 0)));
    // from the reading before: 5,000 more
    check_mileage(&rt, -5_000, &swing(5_000, -5_000), Ok((25_000, 0)));
    check_mileage(&rt, -10_000, &widest(), Ok((3_000_000, -10_000)));
    check_mileage(&rt, 10_000, &still(10_000), Ok((0, 10_000)));
    check_mileage(&rt, 0, &ramp(), Ok((1_500, 1_500)));
    check_mileage(&rt, 0, &ending(10_001), Err(SignalRefusal::ReadingRange));
    check_mileage(&rt, 0, &ending(i32::MIN), Err(SignalRefusal::ReadingRange));
    check_mileage(&rt, -10_001, &still(0), Err(SignalRefusal::ReadingRange));
    assert_eq!(rt; SignalRefusal::ReadingCount.number(), 6);
    assert_eq!(rt; SignalRefusal::ReadingRange.number(), 6);
}

// Another number of readings, before their range.
#[test]
fn signal_lengths(rt: HostRuntime) -> Result<(), Fail> {
    let heap = rt.alloc();
    let none = vec![in heap; 0; 0]?;
    let short = vec![in heap; 0; 149]?;
    let far = vec![in heap; 10_001; 149]?;
    let long = vec![in heap; 0; 151]?;
    check_mileage(&rt, 0, none.as_slice(), Err(SignalRefusal::ReadingCount));
    check_mileage(&rt, 0, short.as_slice(), Err(SignalRefusal::ReadingCount));
    check_mileage(&rt, 0, far.as_slice(), Err(SignalRefusal::ReadingCount));
    check_mileage(&rt, 0, long.as_slice(), Err(SignalRefusal::ReadingCount));
    Ok(())
}

#[test]
fn windows(rt: HostRuntime) {
    let mut window = GatheringWindow::new();
    assert_eq!(rt; window.add(1_000_001), Err(WindowRefusal::PointRange));
    assert_eq!(rt; window.add(-1_000_001), Err(WindowRefusal::PointRange));
    assert_eq!(rt; window.add(1_000_000), Ok(()));
    assert_eq!(rt; window.add(i32::MIN), Err(WindowRefusal::PointRange));
    assert_eq!(rt; window.add(-1_000_000), Ok(()));
    for _ in 0..28 {
        assert_eq!(rt; window.add(7), Ok(()));
    }
    // a 31st point, even where it is out of its range too
    assert_eq!(rt; window.add(8), Err(WindowRefusal::Full));
    assert_eq!(rt; window.add(1_000_001), Err(WindowRefusal::Full));
    let mut full = [7; 30];
    full[0] = 1_000_000;
    full[1] = -1_000_000;
    assert_eq!(rt; *window.close().points(), full);
    assert_eq!(rt; *GatheringWindow::new().close().points(), [0; 30]);
    assert_eq!(rt; WindowRefusal::Full.number(), 4);
    assert_eq!(rt; WindowRefusal::PointRange.number(), 6);
}

fn check_gather(rt: &impl Abort, points: &[i32], answer: Result<[i32; 30], WindowRefusal>) {
    let found = gather(points).map(|window| *window.points());
    assert_eq!(rt; found, answer);
}

#[test]
fn gathered(rt: HostRuntime) {
    let mut three = [0; 30];
    three[0] = 4;
    three[1] = -5;
    three[2] = 6;
    check_gather(&rt, &[], Ok([0; 30]));
    check_gather(&rt, &[4, -5, 6], Ok(three));
    check_gather(&rt, &[9; 30], Ok([9; 30]));
    check_gather(&rt, &[9; 31], Err(WindowRefusal::Full));
    check_gather(&rt, &[4, 1_000_001, 6], Err(WindowRefusal::PointRange));
    let mut last = [9; 31];
    last[30] = 1_000_001;
    check_gather(&rt, &last, Err(WindowRefusal::Full));
    last[29] = 1_000_001;
    check_gather(&rt, &last, Err(WindowRefusal::PointRange));
}

fn closed(points: &[i32]) -> Result<ClosedWindow, Fail> {
    gather(points).map_err(|_| Fail::new("the points are refused"))
}

#[test]
fn errors(rt: HostRuntime) -> Result<(), Fail> {
    // point 1 against reading 0, point 2 against reading 5, point 30 against reading 145: not 5, 10 and 150
    let window = closed(&[0, 7, -3])?;
    let signal = Signal {
        previous: -7,
        readings: &ramp(),
    };
    let errors = tracking_errors(&window, 1_000, &signal);
    assert_eq!(rt; errors[0], 7_000);
    assert_eq!(rt; errors[1], 20_000);
    assert_eq!(rt; errors[2], 130_000);
    assert_eq!(rt; errors[3], 150_000);
    assert_eq!(rt; errors[29], 1_450_000);
    // the largest error that points and readings in their ranges can have
    let far = closed(&[-1_000_000; 30])?;
    let signal = Signal {
        previous: 10_000,
        readings: &still(10_000),
    };
    let largest = tracking_errors(&far, 200_000, &signal);
    assert_eq!(rt; largest, [12_000_000_000; 30]);
    Ok(())
}
