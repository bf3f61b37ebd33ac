use layout::FaultLine;
use reports::report_score;
use std::alloc::Global;
use std::process::Abort;
use std::test::Fail;

// What the program prints for a text: an answer, or what is told where it fails.
fn check_text(
    rt: &impl Abort,
    heap: Global,
    text: &str,
    printed: Result<&str, &str>,
) -> Result<(), Fail> {
    match report_score(heap, text) {
        Ok(answer) => assert_eq!(rt; Ok(answer.as_str()), printed),
        Err(fault) => {
            let line = FaultLine { fault: &fault };
            let told = format!(in heap; "{line}")?;
            assert_eq!(rt; Err(told.as_str()), printed);
        }
    }
    Ok(())
}

// As many zeros, with a blank before each.
fn zeros(heap: Global, count: usize) -> Result<String, Fail> {
    Ok(" 0".repeat(heap, count)?)
}

// The lines before the signal, a signal of 150 zeros, and the lines after it.
fn check_around(
    rt: &impl Abort,
    heap: Global,
    before: &str,
    after: &str,
    printed: Result<&str, &str>,
) -> Result<(), Fail> {
    let signal = zeros(heap, 150)?;
    let text = format!(in heap; "{before}\nsignal{signal}\n{after}\n")?;
    check_text(rt, heap, text.as_str(), printed)
}

const HEAD: &str = "assigned 1000\nhistoric 6000\nprevious 100";

#[test]
fn score_sheets(rt: HostRuntime) -> Result<(), Fail> {
    let heap = rt.alloc();
    // one point of 5 kW, where 100 ten-thousandths of 1,000 kW are asked for
    check_around(
        &rt,
        heap,
        HEAD,
        "points 5",
        Ok(
            "mileage                100
last reading             0
largest error        50000  at point 1
precision             9998
band                 10000
historic              6000
",
        ),
    )?;
    // comments, lines without words, signs
    check_around(
        &rt,
        heap,
        "# a file\n\n assigned +1000#kW\nhistoric 6000 \nprevious -100\n",
        "\tpoints 0 0 -250 250 # four\n\nblend 12000 band historic",
        Ok(
            "mileage                100
last reading             0
largest error      2500000  at point 3
precision             9830
band                  9333
historic              6000
blend                 9333  of 10000 band and 0 historic
",
        ),
    )?;
    check_around(
        &rt,
        heap,
        HEAD,
        "points\nblend 2500 precision historic",
        Ok(
            "mileage                100
last reading             0
largest error       100000  at point 1
precision             9996
band                 10000
historic              6000
blend                 6999  of 2500 precision and 7500 historic
",
        ),
    )
}

#[test]
fn score_refusals(rt: HostRuntime) -> Result<(), Fail> {
    let heap = rt.alloc();
    check_around(
        &rt,
        heap,
        "assigned 99\nhistoric 10001\nprevious 0",
        "points",
        Ok("refused 6: the kW assigned are outside 100 to 200000\n"),
    )?;
    check_around(
        &rt,
        heap,
        "assigned 200001\nhistoric 0\nprevious 0",
        "points",
        Ok("refused 6: the kW assigned are outside 100 to 200000\n"),
    )?;
    check_around(
        &rt,
        heap,
        "assigned 200000\nhistoric 10001\nprevious 20000",
        "points",
        Ok("refused 6: the historic score is above 10000\n"),
    )?;
    check_around(
        &rt,
        heap,
        "assigned 100\nhistoric 10000\nprevious -10001",
        "points 1000001",
        Ok("refused 6: a reading is outside -10000 to 10000\n"),
    )?;
    check_around(
        &rt,
        heap,
        HEAD,
        "points 1 1000001",
        Ok("refused 6: a point is outside -1000000 to 1000000 kW\n"),
    )?;
    let points = zeros(heap, 30)?;
    let after = format!(in heap; "points{points} 1000001")?;
    check_around(
        &rt,
        heap,
        HEAD,
        after.as_str(),
        Ok("refused 4: there are more than 30 points\n"),
    )?;
    let short = zeros(heap, 149)?;
    let text = format!(in heap; "{HEAD}\nsignal{short}\npoints\n")?;
    check_text(
        &rt,
        heap,
        text.as_str(),
        Ok("refused 6: there are not 150 readings\n"),
    )
}

#[test]
fn score_faults(rt: HostRuntime) -> Result<(), Fail> {
    let heap = rt.alloc();
    check_text(
        &rt,
        heap,
        "",
        Err("line 1: expected the word 'assigned', found the end of the file\n"),
    )?;
    check_text(
        &rt,
        heap,
        "# nothing\n\nassigned\nhistoric x",
        Err("line 3: expected a whole number from 0 to 4294967295, found the end of the line\n"),
    )?;
    check_text(
        &rt,
        heap,
        "assigned -1",
        Err("line 1: expected a whole number from 0 to 4294967295, found '-1'\n"),
    )?;
    check_text(
        &rt,
        heap,
        "assigned 1 2",
        Err("line 1: expected the end of the line, found '2'\n"),
    )?;
    check_text(
        &rt,
        heap,
        "assigned 1\n\nhistory 2",
        Err("line 3: expected the word 'historic', found 'history'\n"),
    )?;
    check_text(
        &rt,
        heap,
        "assigned 1\nhistoric 2\nprevious 2147483648",
        Err("line 3: expected a whole number from -2147483648 to 2147483647, found '2147483648'\n"),
    )?;
    check_text(
        &rt,
        heap,
        "assigned 1\nhistoric 2\nprevious 3\nsignal 1 2 3 4.5",
        Err(
            "line 4: expected a whole number from -2147483648 to 2147483647 or the end of the line, found '4.5'\n",
        ),
    )?;
    check_text(
        &rt,
        heap,
        "assigned 1\nhistoric 2\nprevious 3\nsignal\n# the end",
        Err("line 5: expected the word 'points', found the end of the file\n"),
    )?;
    check_around(
        &rt,
        heap,
        HEAD,
        "points\npoints",
        Err("line 6: expected the word 'blend' or the end of the file, found 'points'\n"),
    )?;
    check_around(
        &rt,
        heap,
        HEAD,
        "points\nblend 5000 precision middle",
        Err("line 6: expected 'precision', 'band' or 'historic', found 'middle'\n"),
    )?;
    check_around(
        &rt,
        heap,
        HEAD,
        "points\nblend 5000 precision",
        Err("line 6: expected 'precision', 'band' or 'historic', found the end of the line\n"),
    )?;
    check_around(
        &rt,
        heap,
        HEAD,
        "points\nblend 1 band band\nblend 2 band band",
        Err("line 7: expected the end of the file, found 'blend'\n"),
    )
}
