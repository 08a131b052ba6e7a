//! How runs end: limits, faults, and what reads offer.
ghost use Rattle.std.specs.Prelude.{◌≡◌, None};
ghost use Rattle.apply_io.specs.Causes.{next_count};

use crate::worlds::{FIRST, LINES, PLAIN, RESPONSES, expect_run};
use Special::{Folder, Nothing, Read, Words, Write};
use Status::{InputLimit, ReadFault, Served, Usage, WriteFault};
use apply_io::{Failed, Source};
use apply_service::Status;
use run_support::{Case, outcome, outcome_of, outcome_over, texts, words};
use std::alloc::Global;
use std::process::Abort;
use std::test::Fail;
use std::thread::Threads;

/// The statuses and their numbers.
const NUMBERS: &[(Status, u8)] = &[
    (Status::Served, 0),
    (Status::Usage, 1),
    (Status::ModelRefused, 2),
    (Status::DataRefused, 3),
    (Status::ReadFault, 4),
    (Status::WriteFault, 5),
    (Status::Memory, 6),
    (Status::InputLimit, 7),
];

#[test]
fn each_status_has_its_number(rt: HostRuntime) {
    for (status, number) in NUMBERS {
        assert_eq!(rt; status.number(), *number);
    }
}

/// No bytes.
const NOTHING: &[u8] = b"";

/// The first response without the LF behind its body.
const FIRST_BODY: &[u8] =
    b"200 88\n{\"@context\":\"$metadata#Sales(Total)\",\"value\":[{\"Total@type\":\"Decimal\",\"Total\":\"26.00\"}]}";

/// What is special in a run.
#[derive(Clone, Copy)]
enum Special {
    /// Nothing.
    Nothing,
    /// The call on the folder with this number fails.
    Folder(u64),
    /// The read of the input with this number fails.
    Read(u64),
    /// The write with this number fails.
    Write(u64),
    /// There are further words.
    Words(&'static [&'static str]),
}

/// What is special in a run, how many bytes a call gives or takes, how the run ends, and what it writes.
type End = (Special, usize, Status, &'static [u8]);

/// After a failed read the lines before it are answered.
const FAILED_READS: &[End] = &[
    (Folder(1), 4096, ReadFault, NOTHING),
    (Folder(2), 4096, ReadFault, NOTHING),
    (Folder(3), 4096, ReadFault, NOTHING),
    (Folder(4), 4096, ReadFault, NOTHING),
    (Read(1), 48, ReadFault, NOTHING),
    (Read(2), 48, ReadFault, NOTHING),
    (Read(3), 48, ReadFault, FIRST),
];

/// A failed write leaves a front of the responses.
const FAILED_WRITES: &[End] = &[
    (Write(1), 4096, WriteFault, NOTHING),
    (Write(2), 4096, WriteFault, b"200 88\n"),
    (Write(3), 4096, WriteFault, FIRST_BODY),
    (Write(4), 4096, WriteFault, FIRST),
    (Write(2), 3, WriteFault, b"200"),
];

/// Past the limit of the input the lines within it are answered.
const LIMITS: &[End] = &[
    (Words(&["--max-bytes", "92"]), 4096, Served, RESPONSES),
    (Words(&["--max-bytes", "92"]), 1, Served, RESPONSES),
    (Words(&["--max-bytes", "91"]), 4096, InputLimit, FIRST),
    (Words(&["--max-bytes", "91"]), 1, InputLimit, FIRST),
    (Words(&["--max-bytes", "50"]), 7, InputLimit, FIRST),
    (Words(&["--max-bytes", "49"]), 7, InputLimit, NOTHING),
    (Words(&["--max-bytes", "10"]), 4096, InputLimit, NOTHING),
    (Words(&["--max-bytes", "0"]), 4096, InputLimit, NOTHING),
];

/// Two requests, each with its LF, the first of 49 bytes with it.
const TWO: &[u8] =
    b"Sales?$apply=aggregate(Amount with sum as Total)\nSales?$apply=filter(ID eq 99)/aggregate(Amount with sum as T,$count as N)\n";

/// The responses to them.
const BOTH: &[u8] =
    b"200 88\n{\"@context\":\"$metadata#Sales(Total)\",\"value\":[{\"Total@type\":\"Decimal\",\"Total\":\"26.00\"}]}\n200 100\n{\"@context\":\"$metadata#Sales(N,T)\",\"value\":[{\"N@type\":\"Int64\",\"N\":\"0\",\"T@type\":\"Decimal\",\"T\":null}]}\n";

/// The two requests, given 49 bytes a read.
const IN_PARTS: Case<'static> = Case {
    input: TWO,
    most: 49,
    ..PLAIN
};

/// What was written belongs to what was taken, whatever ends the run.
const TAKEN: &[End] = &[
    (Nothing, 49, Served, BOTH),
    (Read(1), 49, ReadFault, NOTHING),
    (Read(2), 49, ReadFault, FIRST),
    (Read(3), 49, ReadFault, FIRST),
    (Read(4), 49, ReadFault, BOTH),
    (Folder(1), 49, ReadFault, NOTHING),
    (Folder(2), 49, ReadFault, NOTHING),
    (Folder(3), 49, ReadFault, NOTHING),
    (Folder(4), 49, ReadFault, NOTHING),
    (Folder(5), 49, Served, BOTH),
    (Words(&["--max-bytes", "123"]), 49, Served, BOTH),
    (Words(&["--max-bytes", "122"]), 49, InputLimit, FIRST),
    (Words(&["--max-bytes", "49"]), 49, InputLimit, FIRST),
    (Words(&["--max-bytes", "10"]), 49, InputLimit, NOTHING),
    (Words(&["--max-bytes", "0"]), 49, InputLimit, NOTHING),
    (Words(&["--workers", "0"]), 49, Usage, NOTHING),
    (Words(&["--model", "x"]), 49, Usage, NOTHING),
];

/// The same of an input without a byte.
const NONE_TAKEN: &[End] = &[(Words(&["--max-bytes", "0"]), 49, Served, NOTHING)];

/// Inputs, and runs over them.
const RUNS: &[(&[u8], &[End])] = &[
    (LINES, FAILED_READS),
    (LINES, FAILED_WRITES),
    (LINES, LIMITS),
    (TWO, TAKEN),
    (NOTHING, NONE_TAKEN),
];

/// The case with what is special in it.
fn with_special<'a>(case: Case<'a>, special: Special) -> Case<'a> {
    match special {
        Nothing => case,
        Folder(folder_fails) => Case {
            folder_fails,
            ..case
        },
        Read(input_fails) => Case {
            input_fails,
            ..case
        },
        Write(output_fails) => Case {
            output_fails,
            ..case
        },
        Words(words) => Case { words, ..case },
    }
}

/// Runs over an input, and compares how the run ends and what it writes.
fn expect_end<R: Threads + Sync + Abort>(
    rt: &R,
    alloc: Global,
    input: &[u8],
    end: &End,
) -> Result<(), Fail> {
    let (special, most, status, output) = *end;
    let plain = Case {
        input,
        most,
        ..PLAIN
    };
    let case = with_special(plain, special);
    expect_run(rt, alloc, &case, status, output)
}

#[test]
fn what_runs_write_belongs_to_what_they_took(rt: HostRuntime) -> Result<(), Fail> {
    for (input, ends) in RUNS {
        for end in *ends {
            expect_end(&rt, rt.alloc(), input, end)?;
        }
    }
    Ok(())
}

#[test]
fn a_file_that_is_not_there_is_a_failed_read(rt: HostRuntime) -> Result<(), Fail> {
    let alloc = rt.alloc();
    let words = texts(alloc, &["--model", "x", "--data", "d"])?;
    let ran = outcome_of(&rt, alloc, &PLAIN, words.as_slice(), TWO.to_vec(alloc)?)?;
    assert_eq!(rt;
        (ran.status, ran.output.as_slice()),
        (Status::ReadFault, NOTHING)
    );
    Ok(())
}

/// How many writes the two responses take, with at most 49 bytes in each: a head, 49 and 39 bytes of a body and a line end, and a head, 49, 49
/// and 2 bytes and a line end.
const WRITES: u64 = 9;

/// Compares what is written where a write fails with what was written where the one before it failed; the answer is how much it is.
fn expect_front(rt: &impl Abort, output: &[u8], output_fails: u64, before: usize) -> usize {
    assert!(rt; BOTH.starts_with(output), "{output_fails}");
    assert!(rt; output.is_empty() == (output_fails == 1), "{output_fails}");
    assert!(rt; before <= output.len(), "{output_fails}");
    output.len()
}

#[test]
fn whichever_write_fails_a_front_of_the_responses_is_written(rt: HostRuntime) -> Result<(), Fail> {
    let mut before = 0;
    for output_fails in 1..=WRITES + 1 {
        let case = Case {
            output_fails,
            ..IN_PARTS
        };
        let ran = outcome(&rt, rt.alloc(), &case)?;
        let status = if output_fails > WRITES {
            Status::Served
        } else {
            Status::WriteFault
        };
        assert_eq!(rt; ran.status, status, "{output_fails}");
        before = expect_front(&rt, ran.output.as_slice(), output_fails, before);
    }
    assert_eq!(rt; before, BOTH.len());
    Ok(())
}

/// A source of as many LFs as it is told, which notes how many bytes its reads were offered.
#[derive(Drop)]
struct OfferedSource {
    left: usize,
    reads: u64,
    least: usize,
    most: usize,
}

impl Source for OfferedSource {
    ghost left = { λ _. None };

    ghost fault_count = { λ _. 0 };

    ghost reads_once = { λ s t. t.reads ≡ next_count s.reads };

    fn faults(&self) -> u64 {
        0
    }

    fn read(&mut self, buf: &mut [u8]) -> Result<usize, Failed> {
        let count = buf.len().min(self.left);
        buf[..count].fill(b'\n');
        self.left -= count;
        self.reads = self.reads.saturating_add(1);
        self.least = self.least.min(buf.len());
        self.most = self.most.max(buf.len());
        Ok(count)
    }
}

/// The limit, how many LFs the source has, how the run ends, and of its reads the number and the least offer.
const OFFERS: &[(&str, usize, Status, u64, usize)] = &[
    ("1073741824", 10_000, Status::Served, 4, 4096),
    ("8292", 8292, Status::Served, 4, 1),
    ("8292", 8293, Status::InputLimit, 3, 101),
    ("0", 0, Status::Served, 1, 1),
];

#[test]
fn a_read_of_the_input_offers_no_more_than_the_buffer_and_the_limit(
    rt: HostRuntime,
) -> Result<(), Fail> {
    for (limit, left, status, reads, least) in OFFERS {
        let mut input = OfferedSource {
            left: *left,
            reads: 0,
            least: usize::MAX,
            most: 0,
        };
        let case = Case {
            words: &["--max-bytes", *limit],
            ..PLAIN
        };
        let words = words(rt.alloc(), &case)?;
        let ran = outcome_over(&rt, rt.alloc(), &PLAIN, words.as_slice(), &mut input)?;
        let found = (ran.status, input.reads, input.least);
        assert_eq!(rt; found, (*status, *reads, *least), "{limit}");
        assert!(rt; input.most <= 4096, "{limit}");
    }
    Ok(())
}

/// A source that gives one line at each read, as often as it is told, and notes how many reads there were.
#[derive(Drop)]
struct LineSource {
    left: u64,
    reads: u64,
}

impl Source for LineSource {
    ghost left = { λ _. None };

    ghost fault_count = { λ _. 0 };

    ghost reads_once = { λ s t. t.reads ≡ next_count s.reads };

    fn faults(&self) -> u64 {
        0
    }

    fn read(&mut self, buf: &mut [u8]) -> Result<usize, Failed> {
        self.reads = self.reads.saturating_add(1);
        if self.left == 0 {
            return Ok(0);
        }
        self.left -= 1;
        let line = b"Sales?$apply=aggregate(Amount with sum as Total)\n".as_slice();
        let count = buf.len().min(line.len());
        buf[..count].copy_from_slice(&line[..count]);
        Ok(count)
    }
}

/// Which write fails, and how many reads there were before it.
const READ_BEFORE: &[(u64, u64)] = &[(1, 1), (2, 1), (3, 1), (4, 2), (7, 3), (15, 5)];

#[test]
fn a_line_is_answered_before_the_next_read_and_nothing_is_read_after_a_failed_write(
    rt: HostRuntime,
) -> Result<(), Fail> {
    let words = words(rt.alloc(), &PLAIN)?;
    for (output_fails, reads) in READ_BEFORE {
        let mut input = LineSource { left: 9, reads: 0 };
        let case = Case {
            output_fails: *output_fails,
            ..PLAIN
        };
        let ran = outcome_over(&rt, rt.alloc(), &case, words.as_slice(), &mut input)?;
        let found = (ran.status, input.reads);
        assert_eq!(rt; found, (Status::WriteFault, *reads), "{output_fails}");
    }
    Ok(())
}
