// Each call of the outside fails in turn, of each command over its worked rows.
use crate::calls::{Outside, run_over};
use crate::texts::{COUNTER, GATE, INVERTERS, ONE_LANE, SUMS, TURN, TURNED_LEAK, UNDRIVEN};
use std::alloc::{AllocError, Global};
use sv_io::MemCabinet;

const CERTIFICATE: &str = "secv-proof 1\nobligations 2\no 1 1\n0 3 5 6 0\no 2 1\n0 1 3 0\nend\n";

const WRONG_LINE_4: &str = "secv-proof 1\nobligations 2\no 1 1\n0 4 3 1 0\no 2 1\n0 1 3 0\nend\n";

const NO_LINE_7: &str = "secv-proof 1\nobligations 2\no 1 1\n0 3 5 6 0\no 2 1\n0 1 3 0\n";

const FIRST: &str = "inputs turn a b\n0 1 0\n1 1 1\n";

const SECOND: &str = "inputs turn a b\n0 1 1\n1 1 0\n";

const OTHER: &str = "inputs turn a b\n0 0 1\n1 1 0\n";

// What stands beside the design.
const FILES: [(&str, &str); 6] = [
    ("p", CERTIFICATE),
    ("p4", WRONG_LINE_4),
    ("p7", NO_LINE_7),
    ("A", FIRST),
    ("B", SECOND),
    ("C", OTHER),
];

const STIMULUS: &str = "start q 9\ninputs en d\n1 3\n0 F\n1 0\n";

const TRACE: &str = "0 en=1 d=3 q=9 s=0 n=a\n1 en=0 d=f q=a s=3 n=b\n2 en=1 d=0 q=a s=c n=b\n";

const TURN_LIST: &str = "1 y now +3:19 =3:10 reads turn b\n2 y now -3:19 =3:10 reads turn a\n";

const CLAUSES: &str = "p cnf 3 6\n1 0\n1 -3 0\n-2 -3 0\n-1 2 3 0\n2 0\n3 0\n";

const ONE: &str = "accepted 1 obligations\n";

const TWO: &str = "accepted 2 obligations\n";

const AS_JSON: &str = "{\"obligations\":2,\"verdict\":\"accepted\"}\n";

const LEAKED: &str = "refused flow 2 y from b\nin turn 0\nin a 0\nin b 0\n";

const NOT_DRIVEN: &str = "refused 604 undriven 1:17 y\n";

const NO_OBLIGATION: &str = "refused 706 no-obligation\n";

const WRONG_HEADER: &str = "refused stimulus input 1 header\n";

const SPENT: &str = "unknown obligation 2 budget 1\n";

const TURNED: &str = "inputs a\n0\n1\n";

const INVERTED: &str = "0 a=0 y=1 p=1 q=0\n1 a=1 y=0 p=0 q=1\n";

const ROUNDS: &str = "0 a=0 y=1 p=1 q=0\n1 a=1 y=0 p=0 q=1\nrounds 4\n";

const EQUAL: &str = "equal 2 cycles\n";

const DIFFER_A: &str = "differ input 0 a\n";

const DIFFER_B: &str = "differ input 0 b\n";

const DIFFER_Y: &str = "differ view 0 y\n";

const NO_LEVEL: &str = "refused 707 level\n";

// Words over a design, beside which stand certificates and stimuli, and an input; how many calls
// of the files and how many takes there are, and what is written.
type Row = (
    &'static str,
    &'static str,
    &'static str,
    u32,
    u32,
    &'static str,
);

const ROWS: [Row; 30] = [
    ("check f", GATE, "", 1, 0, ONE),
    ("check f --top top", TURN, "", 1, 0, TWO),
    ("check f --json", TURN, "", 1, 0, AS_JSON),
    ("check f --budget 1", SUMS, "", 1, 0, SPENT),
    ("check f --proof q", TURN, "", 2, 0, TWO),
    ("check f --proof p", TURN, "", 2, 0, TWO),
    ("check f --proof q", SUMS, "", 2, 0, TWO),
    ("check f", TURNED_LEAK, "", 1, 0, LEAKED),
    ("check f", UNDRIVEN, "", 1, 0, NOT_DRIVEN),
    ("check none", TURN, "", 1, 0, ""),
    ("check f g", TURN, "", 0, 0, "usage words\n"),
    ("verify f p", TURN, "", 2, 0, TWO),
    ("verify f p7", TURN, "", 2, 0, "refused proof 7\n"),
    ("verify f p4", TURN, "", 2, 0, "refused proof 4\n"),
    ("verify f A", TURN, "", 2, 0, "refused proof 1\n"),
    ("list f", TURN, "", 1, 0, TURN_LIST),
    ("cnf f 1", TURN, "", 1, 0, CLAUSES),
    ("cnf f 3", TURN, "", 1, 0, NO_OBLIGATION),
    ("sim f", COUNTER, STIMULUS, 1, 35, TRACE),
    ("sim f --level L", COUNTER, "inputs x\n", 1, 9, WRONG_HEADER),
    ("sim f", INVERTERS, TURNED, 1, 14, INVERTED),
    ("sim f --order 1", INVERTERS, TURNED, 1, 14, ROUNDS),
    ("compare f A B --level L", TURN, "", 3, 0, EQUAL),
    ("compare f A B --level L", TURNED_LEAK, "", 3, 0, DIFFER_Y),
    ("compare f A C --level L", TURN, "", 3, 0, DIFFER_A),
    ("compare f A B --level H", TURN, "", 3, 0, DIFFER_B),
    ("compare f A C --level Q", TURN, "", 1, 0, NO_LEVEL),
    ("gen 1", TURN, "", 0, 0, ONE_LANE),
    ("gen 1 --check", TURN, "", 0, 0, "accepted 14 obligations\n"),
    ("chekc f", TURN, "", 0, 0, "usage unknown-command\n"),
];

// Nothing comes in, and nothing fails.
const QUIET: Outside<'static> = Outside {
    stimulus: "",
    take: 0,
    put: 0,
};

const READ_FAULT: u8 = 4;

const WRITE_FAULT: u8 = 5;

// The files of a row, of which the call with the number fails; none does at 0.
fn files_of(alloc: Global, text: &str, call: u32) -> Result<MemCabinet, AllocError> {
    let mut files = MemCabinet::new(alloc, vec![in alloc; call]?);
    files.hold("f", text.as_bytes())?;
    for (name, bytes) in &FILES {
        files.hold(name, bytes.as_bytes())?;
    }
    Ok(files)
}

// What becomes of words over a text where the call of the files with the number fails.
fn ended(
    alloc: Global,
    words: &str,
    text: &str,
    call: u32,
    outside: Outside<'_>,
) -> Result<(u8, Vec<u8>), AllocError> {
    let mut files = files_of(alloc, text, call)?;
    run_over(alloc, words, &mut files, outside)
}

// What `check` stores of a text.
fn certificate_of(alloc: Global, text: &str) -> Result<Vec<u8>, AllocError> {
    let mut files = files_of(alloc, text, 0)?;
    let _ = run_over(alloc, "check f --proof stored", &mut files, QUIET)?;
    Vec::from_slice(alloc, files.bytes("stored").unwrap_or(b""))
}

// Whether the bytes under the name are those of before, or a front of a certificate of the design.
fn is_kept(files: &MemCabinet, name: &str, before: &[u8], certificate: &[u8]) -> bool {
    match files.bytes(name) {
        Some(bytes) => bytes == before || certificate.starts_with(bytes),
        None => before.is_empty(),
    }
}

// Whether nothing is stored: `q` is absent, and `p` is what it was.
fn is_not_stored(files: &MemCabinet) -> bool {
    files.bytes("q").is_none() && files.bytes("p").unwrap_or(b"") == CERTIFICATE.as_bytes()
}

// Whether the design is what it was, and what may be stored a front of its certificate.
fn are_kept(files: &MemCabinet, text: &str, certificate: &[u8]) -> bool {
    is_kept(files, "q", b"", certificate)
        && is_kept(files, "p", CERTIFICATE.as_bytes(), certificate)
        && files.bytes("f").unwrap_or(b"") == text.as_bytes()
}

// Whether nothing is written where this call of the files fails.
fn is_silent(alloc: Global, row: &Row, call: u32, certificate: &[u8]) -> Result<bool, AllocError> {
    let (words, text, stimulus, ..) = row;
    let mut files = files_of(alloc, text, call)?;
    let outside = Outside {
        stimulus,
        take: 0,
        put: 0,
    };
    let (status, bytes) = run_over(alloc, words, &mut files, outside)?;
    let stores = call == 2 && words.starts_with("check");
    let is_wanted = if stores {
        status == WRITE_FAULT
    } else {
        status == READ_FAULT && is_not_stored(&files)
    };
    Ok(is_wanted && bytes.is_empty() && are_kept(&files, text, certificate))
}

// Whether each call of the files that fails is silent; a call more is not made.
fn fails_at_each_file(alloc: Global, row: &Row) -> Result<bool, AllocError> {
    let (words, text, stimulus, calls, _, whole) = row;
    let certificate = certificate_of(alloc, text)?;
    for call in 1..=*calls {
        if !is_silent(alloc, row, call, &certificate)? {
            return Ok(false);
        }
    }
    let outside = Outside {
        stimulus,
        take: 0,
        put: 0,
    };
    let (_, bytes) = ended(alloc, words, text, calls.saturating_add(1), outside)?;
    Ok(bytes.as_slice() == whole.as_bytes())
}

#[test]
fn a_file_that_fails_is_silent(rt: HostRuntime) {
    for row in &ROWS {
        assert!(rt; fails_at_each_file(rt.alloc(), row) == Ok(true));
    }
}

// Whether each put that fails has what stands before it written.
fn fails_at_each_put(alloc: Global, row: &Row) -> Result<bool, AllocError> {
    let (words, text, stimulus, _, _, whole) = row;
    let whole = whole.as_bytes();
    let mut put = 0_u32;
    for before in 0..whole.len() {
        put = put.saturating_add(1);
        let outside = Outside {
            stimulus,
            take: 0,
            put,
        };
        let (status, bytes) = ended(alloc, words, text, 0, outside)?;
        if status != WRITE_FAULT || bytes.as_slice() != &whole[..before] {
            return Ok(false);
        }
    }
    Ok(true)
}

#[test]
fn an_output_that_fails_has_the_front(rt: HostRuntime) {
    for row in &ROWS {
        assert!(rt; fails_at_each_put(rt.alloc(), row) == Ok(true));
    }
}

// Whether each take that fails has a front of the trace written; a take more is not made.
fn fails_at_each_take(alloc: Global, row: &Row) -> Result<bool, AllocError> {
    let (words, text, stimulus, _, takes, whole) = row;
    let most = takes.saturating_add(1);
    for take in 1..=most {
        let outside = Outside {
            stimulus,
            take,
            put: 0,
        };
        let (status, bytes) = ended(alloc, words, text, 0, outside)?;
        let is_wanted = if take < most {
            status == READ_FAULT && whole.as_bytes().starts_with(bytes.as_slice())
        } else {
            bytes.as_slice() == whole.as_bytes()
        };
        if !is_wanted {
            return Ok(false);
        }
    }
    Ok(true)
}

#[test]
fn an_input_that_fails_has_a_front(rt: HostRuntime) {
    for row in &ROWS {
        assert!(rt; fails_at_each_take(rt.alloc(), row) == Ok(true));
    }
}

// A text, a stimulus of which each take gives a byte, the first and the last of the takes that fail
// in turn, and the status and what is written then.
type Cut = (&'static str, &'static str, u32, u32, u8, &'static str);

const LINE_0: &str = "0 en=1 d=3 q=9 s=0 n=a\n";

const LINES_0_AND_1: &str = "0 en=1 d=3 q=9 s=0 n=a\n1 en=0 d=f q=a s=3 n=b\n";

const INVERTED_0: &str = "0 a=0 y=1 p=1 q=0\n";

const REFUSED_1: &str = "0 a=0 y=1 p=1 q=0\nrefused stimulus input 3 value\n";

const WRONG: &str = "inputs a\n0\nx\n";

// The lines of a trace are there as soon as those of the stimulus are. A wrong line is told once
// its last byte is taken.
const CUTS: [Cut; 6] = [
    (COUNTER, STIMULUS, 1, 26, 4, ""),
    (COUNTER, STIMULUS, 27, 30, 4, LINE_0),
    (COUNTER, STIMULUS, 31, 34, 4, LINES_0_AND_1),
    (INVERTERS, TURNED, 12, 12, 4, INVERTED_0),
    (INVERTERS, WRONG, 13, 13, 4, INVERTED_0),
    (INVERTERS, WRONG, 14, 14, 1, REFUSED_1),
];

// Whether each of these takes that fails has this written.
fn fails_at_takes(alloc: Global, cut: &Cut) -> Result<bool, AllocError> {
    let (text, stimulus, first, last, wanted, printed) = cut;
    for take in *first..=*last {
        let outside = Outside {
            stimulus,
            take,
            put: 0,
        };
        let (status, bytes) = ended(alloc, "sim f", text, 0, outside)?;
        if status != *wanted || bytes.as_slice() != printed.as_bytes() {
            return Ok(false);
        }
    }
    Ok(true)
}

#[test]
fn an_input_that_fails_has_the_lines_so_far(rt: HostRuntime) {
    for cut in &CUTS {
        assert!(rt; fails_at_takes(rt.alloc(), cut) == Ok(true));
    }
}
