use super::reports::EACH_KIND;
use lf_io::MemSink;
use report_text::{ReportErr, read_report, write_report};
use std::alloc::{AllocError, Global};
use std::test::Fail;

/// A fill, an output byte and a halt.
const ONE_FILL: &str = "leon3ft report 1
cores 1
core 0 halt 80 4 5
out 0 41
g 0 00000000 80000000 00000000 00000000 00000000 00000000 00000000 00000000
o 0 00000041 00000000 00000000 00000000 00000000 00000000 00000000 00000000
l 0 00000000 00000000 00000000 00000000 00000000 00000000 00000000 00000000
i 0 00000000 00000000 00000000 00000000 00000000 00000000 00000000 00000000
ctl 0 F3000080 00000002 00000000 00000000 4000000C 40000010
parity 0 0 0 0 0
ahb 00000000 00000000
transfers 1
t 0 0 0 fetch absent 40000000 0 0000000000000000
order 0
flips 0
watch 0
end
";

/// A load that corrects one flip.
const ONE_FLIP: &str = "leon3ft report 1
cores 1
core 0 halt 80 5 7
out 0 5A
g 0 00000000 40001000 80000000 00000000 00000000 00000000 00000000 00000000
o 0 0000005A 00000000 00000000 00000000 00000000 00000000 00000000 00000000
l 0 00000000 00000000 00000000 00000000 00000000 00000000 00000000 00000000
i 0 00000000 00000000 00000000 00000000 00000000 00000000 00000000 00000000
ctl 0 F3000080 00000002 00000000 00000000 40000010 40000014
parity 0 0 0 0 0
ahb 40001000 00000302
transfers 2
t 0 0 0 fetch absent 40000000 0 0000000000000000
t 1 0 3 load absent 40001000 0 4F00000000000000
order 1
L 0 0 4 40001000 0000005A 0
flips 1
f 0 dormant
watch 0
end
";

/// A load that meets two flips.
const TWO_FLIPS: &str = "leon3ft report 1
cores 1
core 0 stop 09 2 4 1 05
out 0 -
g 0 00000000 40001000 80000000 00000000 00000000 00000000 00000000 00000000
o 0 00000000 00000000 00000000 00000000 00000000 00000000 00000000 00000000
l 0 00000000 00000000 00000000 00000000 00000000 00000000 00000000 00000000
i 0 00000000 00000000 00000000 00000000 00000000 00000000 00000000 00000000
ctl 0 F3000080 00000002 00000000 00000000 40000008 4000000C
parity 0 0 0 0 0
ahb 40001000 00000102
transfers 2
t 0 0 0 fetch absent 40000000 0 0000000000000000
t 1 0 3 load absent 40001000 0 0500000000000000
order 0
flips 2
f 0 stopped
f 1 stopped
watch 0
end
";

/// A part store that meets two flips and is lost.
const LOST_STORE: &str = "leon3ft report 1
cores 1
core 0 stop 2B 7 10 2 05
out 0 77
g 0 00000000 40001000 80000000 00000000 00000000 00000000 00000000 00000000
o 0 0000005A 00000077 00000077 00000000 00000000 00000000 00000000 00000000
l 0 00000000 00000000 00000000 00000000 00000000 00000000 00000000 00000000
i 0 00000000 00000000 00000000 00000000 00000000 00000000 00000000 00000000
ctl 0 F3000080 00000002 00000000 00000000 4000001C 40000020
parity 0 0 0 0 0
ahb 40001000 00000180
transfers 3
t 0 0 0 fetch absent 40000000 0 0000000000000000
t 1 0 3 load absent 40001000 0 0000000000000000
t 2 0 9 store end 40001000 - 05
order 3
L 0 0 4 40001000 0000005A 0
L 0 2 7 40001000 77 0
X 0 1 6 40001000 77
flips 2
f 0 stopped
f 1 stopped
watch 0
end
";

/// Two cores, each of which loads what the other stores later.
const STORE_BUFFERING: &str = "leon3ft report 1
cores 2
core 0 halt 80 8 11
out 0 -
g 0 00000000 40001000 00000000 00000020 00000001 00000000 00000000 00000000
o 0 00000000 00000000 00000000 00000000 00000000 00000000 00000000 00000000
l 0 00000000 00000000 00000000 00000000 00000000 00000000 00000000 00000000
i 0 00000000 00000000 00000000 00000000 00000000 00000000 00000000 00000000
ctl 0 F3000080 00000002 00000000 00000000 4000001C 40000020
parity 0 0 0 0 0
core 1 halt 80 8 11
out 1 -
g 1 00000000 40001000 00000020 00000000 00000001 00000000 00000000 00000000
o 1 00000001 00000000 00000000 00000000 00000000 00000000 00000000 00000000
l 1 00000000 00000000 00000000 00000000 00000000 00000000 00000000 00000000
i 1 00000000 00000000 00000000 00000000 00000000 00000000 00000000 00000000
ctl 1 F3000080 00000002 00000000 00000000 4000001C 40000020
parity 1 0 0 0 0
ahb 00000000 00000000
transfers 6
t 0 0 0 fetch absent 40000000 0 0000000000000000
t 1 1 0 fetch absent 40000000 0 0000000000000000
t 2 0 4 load absent 40001020 0 0000000000000000
t 3 1 4 load absent 40001000 0 0000000000000000
t 4 0 9 store end 40001000 - --
t 5 1 9 store end 40001020 - --
order 6
L 0 0 5 40001020 00000000 0
L 0 2 8 40001020 00000000 0
L 1 0 5 40001000 00000000 0
L 1 2 8 40001000 00000000 0
S 0 1 7 40001000 00000001
S 1 1 7 40001020 00000001
flips 0
watch 0
end
";

/// Two cores, one of which waits for a flag of the other.
const MESSAGE_PASSING: &str = "leon3ft report 1
cores 2
core 0 halt 80 8 11
out 0 -
g 0 00000000 40001000 00000000 00000000 00000001 00000000 00000000 00000000
o 0 00000000 00000000 00000000 00000000 00000000 00000000 00000000 00000000
l 0 00000000 00000000 00000000 00000000 00000000 00000000 00000000 00000000
i 0 00000000 00000000 00000000 00000000 00000000 00000000 00000000 00000000
ctl 0 F3400080 00000002 00000000 00000000 4000001C 40000020
parity 0 0 0 0 0
core 1 halt 80 9 14
out 1 -
g 1 00000000 40001000 00000000 00000000 00000001 00000000 00000000 00000000
o 1 00000001 00000000 00000001 00000001 00000000 00000000 00000000 00000000
l 1 00000000 00000000 00000000 00000000 00000000 00000000 00000000 00000000
i 1 00000000 00000000 00000000 00000000 00000000 00000000 00000000 00000000
ctl 1 F3000080 00000002 00000000 00000000 4000002C 40000030
parity 1 0 0 0 0
ahb 00000000 00000000
transfers 8
t 0 1 0 fetch absent 40000000 0 0000000000000000
t 1 1 6 fetch absent 40000020 0 0000000000000000
t 2 1 7 load absent 40001000 0 0000000000000000
t 3 0 0 fetch absent 40000000 0 0000000000000000
t 4 0 8 store end 40001000 - --
t 5 0 9 store end 40001020 - --
t 6 1 9 load absent 40001020 0 0000000000000000
t 7 1 11 load absent 40001000 0 0000000000000000
order 5
L 1 0 8 40001000 00000000 0
S 0 0 6 40001000 00000001
S 0 1 7 40001020 00000001
L 1 1 10 40001020 00000001 0
L 1 2 12 40001000 00000001 0
flips 0
watch 0
end
";

/// A scrubber over a watched word.
const SCRUBBED: &str = "leon3ft report 1
cores 1
core 0 halt 80 4 6
out 0 -
g 0 00000000 40001000 00000000 00000000 00000001 00000000 00000000 00000000
o 0 00000000 00000000 00000000 00000000 00000000 00000000 00000000 00000000
l 0 00000000 00000000 00000000 00000000 00000000 00000000 00000000 00000000
i 0 00000000 00000000 00000000 00000000 00000000 00000000 00000000 00000000
ctl 0 F3000080 00000002 00000000 00000000 4000000C 40000010
parity 0 0 0 0 0
ahb 00000000 00000000
transfers 4
t 0 8 0 look - 40001000 - 5800000000000000
t 1 0 0 fetch absent 40000000 0 0000000000000000
t 2 0 4 store end 40001000 - --
t 3 8 1 fix - 40001000 - 00
order 1
S 0 0 3 40001000 00000001
flips 1
f 0 overwritten
watch 1
w 40001000 00000001
end
";

/// A line in place of another is the first that does not fit.
const WRONG_LINES: [(u64, &str); 44] = [
    (1, "leon3ft report 2"),
    (1, "leon3ft report 1 "),
    (2, "cores 0"),
    (2, "cores 9"),
    (2, "cores 03"),
    (2, "cores 3 "),
    (3, "core 0 stop 9 2 4 1 05"),
    (3, "core 0 stop 09 2 4 1"),
    (3, "core 0 Stop 09 2 4 1 05"),
    (3, "core 1 stop 09 2 4 1 05"),
    (3, "core 0 limit 2 1333334"),
    (4, "out 0"),
    (4, "out 0 -1"),
    (4, "out 0 4"),
    (12, "out 1 77005a"),
    (
        5,
        "g 0 00000000 ------- 00000000 00000000 00000000 00000000 00000000 00000000",
    ),
    (
        5,
        "h 0 00000000 00000000 00000000 00000000 00000000 00000000 00000000 00000000",
    ),
    (
        6,
        "o 0 00000000 00000000 00000000 00000000 00000000 00000000 00000000",
    ),
    (
        9,
        "ctl 0 F3000080 00000002 00000000 -------- 40000008 4000000C",
    ),
    (10, "parity 0 0 0 0 4"),
    (27, "ahb 40001000 0000030"),
    (28, "transfers 5000065"),
    (28, "transfers 011"),
    (29, "t 0 00 0 fetch absent 40000000 0 0000000000000000"),
    (29, "t 1 0 0 fetch absent 40000000 0 0000000000000000"),
    (29, "t 0 0 0 fetch full 40000000 0 0000000000000000"),
    (29, "t 0 0 0 fetch absent 40000000 - 0000000000000000"),
    (29, "t 0 0 0 fetch absent 40000000 256 0000000000000000"),
    (29, "t 0 0 0 fetch absent 40000000 0 00"),
    (29, "t 0 0  0 fetch absent 40000000 0 0000000000000000"),
    (
        29,
        "t 0 0 4294967296 fetch absent 40000000 0 0000000000000000",
    ),
    (38, "t 9 1 10 snoop window 00000004 - -"),
    (40, "order 4000001"),
    (41, "L 0 0 4 40001000 0000005 2"),
    (41, "l 0 0 4 40001000 0000005A 2"),
    (43, "A 1 1 8 40001010 00 00FF"),
    (44, "X 0 1 6 40001000 077"),
    (48, "flips 65537"),
    (49, "f 0 gone"),
    (50, "f 2 declined"),
    (56, "watch 65"),
    (57, "w 40001000 000000001"),
    (58, "w 40001004 ------- "),
    (59, "END"),
];

/// Transfers whose line fits, but whose dashes are not those of their entries.
const WRONG_DASHES: [(u64, &str); 2] = [
    (35, "t 6 1 7 store full 40001008 - --"),
    (37, "t 8 1 9 store sched 40001020 - ----"),
];

/// The text with another line in place of one.
fn with_line(alloc: Global, text: &str, number: u64, line: &str) -> Result<String, AllocError> {
    let mut changed = String::new(alloc);
    let mut n = 0u64;
    for old in text.lines() {
        n = n.saturating_add(1);
        changed.push_str(if n == number { line } else { old })?;
        changed.push_str("\n")?;
    }
    Ok(changed)
}

/// What is told of a text: the number of the line that does not fit, or 0 for a report.
fn told(alloc: Global, text: &[u8]) -> Result<u64, AllocError> {
    match read_report(alloc, text) {
        Ok(_) => Ok(0),
        Err(ReportErr::At { line }) => Ok(line),
        Err(ReportErr::Memory) => Err(AllocError),
    }
}

#[test]
fn reports_are_read_and_written_again(rt: HostRuntime) -> Result<(), Fail> {
    let alloc = rt.alloc();
    for text in [
        ONE_FILL,
        ONE_FLIP,
        TWO_FLIPS,
        LOST_STORE,
        STORE_BUFFERING,
        MESSAGE_PASSING,
        SCRUBBED,
        EACH_KIND,
    ] {
        assert_eq!(rt; told(alloc, text.as_bytes())?, 0);
        if let Ok(trace) = read_report(alloc, text.as_bytes()) {
            let mut out = MemSink::new(alloc, text.len(), &[])?;
            assert!(rt; write_report(&trace, &mut out).is_ok());
            assert_eq!(rt; out.taken(), text.as_bytes());
        }
    }
    Ok(())
}

#[test]
fn the_first_wrong_line_is_told(rt: HostRuntime) -> Result<(), Fail> {
    let alloc = rt.alloc();
    for (number, line) in WRONG_LINES {
        let text = with_line(alloc, EACH_KIND, number, line)?;
        assert_eq!(rt; told(alloc, text.as_bytes())?, number);
    }
    for (number, line) in WRONG_DASHES {
        let text = with_line(alloc, EACH_KIND, number, line)?;
        assert_eq!(rt; told(alloc, text.as_bytes())?, number);
    }
    Ok(())
}

#[test]
fn missing_and_added_bytes_are_told(rt: HostRuntime) -> Result<(), Fail> {
    let alloc = rt.alloc();
    let whole = ONE_FILL.as_bytes();
    let rows: [(&[u8], u64); 4] = [
        (b"", 1),
        (b"leon3ft report 1", 1),
        (&whole[..whole.len().saturating_sub(1)], 17),
        (&whole[..whole.len().saturating_sub(4)], 17),
    ];
    for (text, line) in rows {
        assert_eq!(rt; told(alloc, text)?, line);
    }
    let mut longer = Vec::new(alloc);
    longer.extend_from_slice(whole)?;
    longer.push(b' ')?;
    assert_eq!(rt; told(alloc, &longer)?, 18);
    Ok(())
}
