use layout::FaultLine;
use reports::report_share;
use std::alloc::Global;
use std::process::Abort;
use std::test::Fail;

// The words of a line.
fn words_of(heap: Global, line: &str) -> Result<Vec<String>, Fail> {
    let words = line
        .split_whitespace()
        .map(|word| String::from_str(heap, word))
        .try_collect(heap)?;
    Ok(words)
}

// What the program prints for the words of a line: an answer, or what is told where it fails.
fn check_printed(
    rt: &impl Abort,
    heap: Global,
    line: &str,
    printed: Result<&str, &str>,
) -> Result<(), Fail> {
    let words = words_of(heap, line)?;
    match report_share(heap, words.as_slice()) {
        Ok(text) => assert_eq!(rt; Ok(text.as_str()), printed),
        Err(fault) => {
            let line = FaultLine { fault: &fault };
            let text = format!(in heap; "{line}")?;
            assert_eq!(rt; Err(text.as_str()), printed);
        }
    }
    Ok(())
}

#[test]
fn sheets(rt: HostRuntime) -> Result<(), Fail> {
    let heap = rt.alloc();
    check_printed(
        &rt,
        heap,
        "10 3 3 1",
        Ok(
            "place  weight  exact      remainders     running
    0       3      4 2/7           4           4
    1       3      4 2/7           4           4
    2       1      1 3/7           2           2
  sum       7     10              10          10
",
        ),
    )?;
    check_printed(
        &rt,
        heap,
        "12345678901 0 +10 20",
        Ok(
            "place  weight        exact         remainders      running
    0       0            0                  0            0
    1      10   4115226300 10/30   4115226300   4115226300
    2      20   8230452600 20/30   8230452601   8230452601
  sum      30  12345678901        12345678901  12345678901
",
        ),
    )?;
    check_printed(
        &rt,
        heap,
        "0",
        Ok(
            "place  weight  exact      remainders     running
  sum       0      0               0           0
",
        ),
    )
}

#[test]
fn faults(rt: HostRuntime) -> Result<(), Fail> {
    let heap = rt.alloc();
    check_printed(
        &rt,
        heap,
        "5 0 0",
        Ok("refused 18: the weights add up to 0 and the total does not\n"),
    )?;
    check_printed(
        &rt,
        heap,
        "4000000000000000001 1",
        Ok("refused 19: the total times the sum of the weights is above 4000000000000000000\n"),
    )?;
    check_printed(
        &rt,
        heap,
        "1 1 1 1 1 1 1 1 1 1 1 1 1 1 1 1 1 1 1 1 1 1 1 1 1 1 1 1 1 1 1 1 1 1",
        Ok("refused 6: more than 32 weights\n"),
    )?;
    check_printed(
        &rt,
        heap,
        "",
        Err("expected a total, a whole number from 0 to 18446744073709551615, found nothing\n"),
    )?;
    check_printed(
        &rt,
        heap,
        "18446744073709551616 1",
        Err(
            "expected a total, a whole number from 0 to 18446744073709551615, found '18446744073709551616'\n",
        ),
    )?;
    check_printed(
        &rt,
        heap,
        "18446744073709551615 1 4294967296 x",
        Err(
            "expected a weight for place 1, a whole number from 0 to 4294967295, found '4294967296'\n",
        ),
    )?;
    check_printed(
        &rt,
        heap,
        "1 1 -1",
        Err("expected a weight for place 1, a whole number from 0 to 4294967295, found '-1'\n"),
    )
}
