use score::{AnyScorer, Band, Blend, Historic, Performance, PlainScorer, Precision, Scorer};
use std::array;
use std::process::Abort;

fn check_score<S: Scorer>(
    rt: &impl Abort,
    scorer: &S,
    assigned: u32,
    errors: &[u64],
    historic: u32,
    score: u32,
) {
    let performance = Performance {
        assigned,
        errors,
        historic,
    };
    assert_eq!(rt; scorer.score(&performance), score);
}

// The score by each plain scorer, by itself and as chosen at run time.
fn check_each(
    rt: &impl Abort,
    assigned: u32,
    errors: &[u64],
    historic: u32,
    precision: u32,
    band: u32,
    past: u32,
) {
    check_score(rt, &Precision, assigned, errors, historic, precision);
    check_score(rt, &Band, assigned, errors, historic, band);
    check_score(rt, &Historic, assigned, errors, historic, past);
    let chosen = AnyScorer::Plain(PlainScorer::Precision);
    check_score(rt, &chosen, assigned, errors, historic, precision);
    let chosen = AnyScorer::Plain(PlainScorer::Band);
    check_score(rt, &chosen, assigned, errors, historic, band);
    let chosen = AnyScorer::Plain(PlainScorer::Historic);
    check_score(rt, &chosen, assigned, errors, historic, past);
}

// Eight errors of a tenth of 1,000 kW and the others larger: precision 2,500 and band 2,666.
fn eight_within() -> [u64; 30] {
    array::from_fn(|place| {
        if place < 24 && place % 3 == 0 {
            1_000_000
        } else {
            9_863_636
        }
    })
}

fn check_blend(rt: &impl Abort, weight: u32, score: u32) {
    let errors = eight_within();
    let blend = Blend {
        first: Precision,
        second: Band,
        weight,
    };
    check_score(rt, &blend, 1_000, &errors, 6_000, score);
    let chosen = AnyScorer::Blend(Blend {
        first: PlainScorer::Precision,
        second: PlainScorer::Band,
        weight,
    });
    check_score(rt, &chosen, 1_000, &errors, 6_000, score);
}

#[test]
fn plain(rt: HostRuntime) {
    let mut errors = [7_500_000; 30];
    check_each(&rt, 1_000, &errors, 6_000, 2_500, 0, 6_000);
    errors[17] = 7_510_000;
    check_each(&rt, 1_000, &errors, 6_000, 2_499, 0, 6_000);
    // rounded up: one ten-thousandth more costs a point, one less costs none
    errors[17] = 7_500_001;
    check_each(&rt, 1_000, &errors, 6_000, 2_499, 0, 6_000);
    errors[17] = 7_499_999;
    check_each(&rt, 1_000, &errors, 6_000, 2_500, 0, 6_000);
    check_each(&rt, 1_000, &eight_within(), 0, 2_500, 2_666, 0);
    check_each(&rt, 100, &[0; 30], 10_000, 10_000, 10_000, 10_000);
    // no less than 0
    check_each(&rt, 100, &[20_000_000_000; 30], 1, 0, 0, 1);
    check_each(&rt, 200_000, &[200_000_000; 30], 1, 9_000, 10_000, 1);
    check_each(&rt, 200_000, &[200_000_001; 30], 1, 8_999, 0, 1);
}

#[test]
fn blends(rt: HostRuntime) {
    check_blend(&rt, 0, 2_666);
    check_blend(&rt, 1, 2_665);
    check_blend(&rt, 9_999, 2_500);
    check_blend(&rt, 10_000, 2_500);
    check_blend(&rt, 12_000, 2_500);
    check_blend(&rt, u32::MAX, 2_500);
    // of any two scorers: 8,000 by history, and half of 2,500 and half of 2,666
    let nested = Blend {
        first: Historic,
        second: Blend {
            first: Precision,
            second: Band,
            weight: 5_000,
        },
        weight: 2_500,
    };
    check_score(&rt, &nested, 1_000, &eight_within(), 8_000, 3_937);
}

// A value outside its range, or another number of errors, scores 0, by every scorer.
#[test]
fn outside(rt: HostRuntime) {
    let errors = [0; 30];
    check_each(&rt, 99, &errors, 6_000, 0, 0, 0);
    check_each(&rt, 200_001, &errors, 6_000, 0, 0, 0);
    check_each(&rt, u32::MAX, &errors, 6_000, 0, 0, 0);
    check_each(&rt, 1_000, &[0; 29], 6_000, 0, 0, 0);
    check_each(&rt, 1_000, &[0; 31], 6_000, 0, 0, 0);
    check_each(&rt, 1_000, &[], 6_000, 0, 0, 0);
    check_each(&rt, 1_000, &errors, 10_001, 0, 0, 0);
    let mut beyond = errors;
    beyond[29] = 20_000_000_001;
    check_each(&rt, 1_000, &beyond, 6_000, 0, 0, 0);
    let blend = Blend {
        first: Historic,
        second: Band,
        weight: 5_000,
    };
    check_score(&rt, &blend, 99, &errors, 6_000, 0);
    check_score(&rt, &blend, 1_000, &beyond, 6_000, 0);
}
