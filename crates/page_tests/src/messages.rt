//! What standard error is told of runs that no page shows: files that are no JSON objects, and each status.
use apply_io::MemFolder;
use apply_service::Status;
use run_messages::run_message;
use run_support::texts;
use std::alloc::Global;
use std::test::Fail;

/// Bytes of a model file that hold no object, and what is told of them.
const NO_OBJECTS: &[(&[u8], &str)] = &[
    (b"", "the file is empty"),
    (
        b"\xef\xbb\xbf{}",
        "the file begins with a byte order mark, which must go",
    ),
    (
        b"\xff\xfe{\0}\0",
        "the file is UTF-16 or UTF-32 text, and must be UTF-8",
    ),
    (
        b"\xfe\xff\0{\0}",
        "the file is UTF-16 or UTF-32 text, and must be UTF-8",
    ),
    (
        b"{\0\"\0",
        "the file has bytes 0, as UTF-16 or UTF-32 text has, and must be UTF-8",
    ),
    (
        b"\x1f\x8b\x08",
        "the file is compressed by gzip, and must be JSON text",
    ),
    (
        b"PK\x03\x04\x14",
        "the file is a zip archive, as those of spreadsheets are, and must be JSON text",
    ),
    (
        b"{\"a\":\"\xff\"}",
        "line 1, column 7: the bytes are no UTF-8 text",
    ),
    (
        b"{'a':\"\xff\"}",
        "line 1, column 7: the bytes are no UTF-8 text",
    ),
    (b"[]", "the file holds an array, and must hold an object"),
    (b"17", "the file holds a number, and must hold an object"),
    (b"\"x\"", "the file holds a string, and must hold an object"),
    (b"null", "the file holds null, and must hold an object"),
    (
        b"true",
        "the file holds true or false, and must hold an object",
    ),
    (b"{", "line 1, column 1: the JSON text ends too early"),
    (b"{\"a\":1,}", "line 1, column 8: this is no JSON text"),
    (b"\n\n  x", "line 3, column 3: this is no JSON text"),
];

/// What is told of a run with a model file of these bytes that ended with this status.
fn told(alloc: Global, name: &str, bytes: &[u8], status: Status) -> Result<String, Fail> {
    let words = texts(alloc, &["--model", name, "--data", "d"])?;
    let mut files = Vec::new(alloc);
    files.push((String::from_str(alloc, name)?, bytes.to_vec(alloc)?))?;
    let mut folder = MemFolder::new(files, Vec::new(alloc));
    Ok(run_message(
        alloc,
        status,
        words.as_slice(),
        Some(&mut folder),
        None,
        false,
    )?)
}

#[test]
fn a_model_file_that_holds_no_object_is_told_why(rt: HostRuntime) -> Result<(), Fail> {
    let alloc = rt.alloc();
    for (bytes, expected) in NO_OBJECTS {
        let text = told(alloc, "m", bytes, Status::ModelRefused)?;
        let expected = format!(in alloc; "apply_serve: model file \"m\": {expected}")?;
        assert_eq!(rt; text.as_str(), expected.as_str());
    }
    Ok(())
}

#[test]
fn arrays_that_stand_too_deep_are_told(rt: HostRuntime) -> Result<(), Fail> {
    let alloc = rt.alloc();
    for (open, close, expected) in [
        (127, 127, "the file holds an array, and must hold an object"),
        (127, 0, "line 1, column 127: the JSON text ends too early"),
        (
            128,
            128,
            "line 1, column 129: arrays and objects stand more than 127 deep in one another",
        ),
    ] {
        let mut bytes = Vec::from_elem(alloc, b'[', open)?;
        for _ in 0..close {
            bytes.push(b']')?;
        }
        let text = told(alloc, "m", bytes.as_slice(), Status::ModelRefused)?;
        let expected = format!(in alloc; "apply_serve: model file \"m\": {expected}")?;
        assert_eq!(rt; text.as_str(), expected.as_str());
    }
    let mut bytes = b"{\"a\":\"\\\"".to_vec(alloc)?;
    for _ in 0..200 {
        bytes.push(b'[')?;
    }
    bytes.extend_from_slice(b"\" x")?;
    let text = told(alloc, "m", bytes.as_slice(), Status::ModelRefused)?;
    let expected = "apply_serve: model file \"m\": line 1, column 211: this is no JSON text";
    assert_eq!(rt; text.as_str(), expected);
    Ok(())
}

#[test]
fn a_model_file_past_its_limit_is_told_so(rt: HostRuntime) -> Result<(), Fail> {
    let alloc = rt.alloc();
    let bytes = Vec::from_elem(alloc, b' ', 1_048_577)?;
    let text = told(alloc, "m", bytes.as_slice(), Status::ModelRefused)?;
    let expected = "apply_serve: model file \"m\": the file has more than 1048576 bytes";
    assert_eq!(rt; text.as_str(), expected);
    Ok(())
}

#[test]
fn names_hold_nothing_that_a_terminal_obeys(rt: HostRuntime) -> Result<(), Fail> {
    let alloc = rt.alloc();
    let name = "a\"\u{1b}[31m\u{9b}\u{202e}\u{2800}\u{1d173}\u{e0041}\n\\é";
    let text = told(alloc, name, b"", Status::ModelRefused)?;
    let expected =
        "apply_serve: model file \"a\\\"\\u001b[31m\\u009b\\u202e\\u2800\\ud834\\udd73\\udb40\\udc41\\n\\\\é\": the file is empty";
    assert_eq!(rt; text.as_str(), expected);
    Ok(())
}

#[test]
fn a_file_that_is_not_read_again_is_told_by_its_name(rt: HostRuntime) -> Result<(), Fail> {
    let alloc = rt.alloc();
    let words = texts(alloc, &["--model", "m", "--data", "d"])?;
    let none: Option<&mut MemFolder> = None;
    let text = run_message(
        alloc,
        Status::DataRefused,
        words.as_slice(),
        none,
        None,
        false,
    )?;
    let expected =
        "apply_serve: data file \"d\" is refused; standard output has the class of the fault (a pipe or a device is not read again to say more)";
    assert_eq!(rt; text.as_str(), expected);
    Ok(())
}

#[test]
fn each_status_has_its_line(rt: HostRuntime) -> Result<(), Fail> {
    let alloc = rt.alloc();
    let words = texts(alloc, &["--model", "m", "--data", "d"])?;
    for (status, failed_name, is_input_failed, expected) in [
        (Status::Served, None, false, ""),
        (
            Status::ModelRefused,
            None,
            false,
            "apply_serve: model file \"m\" is refused; standard output has the class of the fault",
        ),
        (
            Status::DataRefused,
            None,
            false,
            "apply_serve: data file \"d\" is refused; standard output has the class of the fault",
        ),
        (
            Status::ReadFault,
            Some("m\u{7}"),
            false,
            "apply_serve: file \"m\\u0007\" could not be read: it is not there, is a directory, or may not be read",
        ),
        (
            Status::ReadFault,
            None,
            true,
            "apply_serve: standard input could not be read",
        ),
        (
            Status::ReadFault,
            None,
            false,
            "apply_serve: a file could not be read",
        ),
        (
            Status::WriteFault,
            None,
            false,
            "apply_serve: standard output could not be written",
        ),
        (Status::Memory, None, false, "apply_serve: out of memory"),
        (
            Status::InputLimit,
            None,
            false,
            "apply_serve: the input has more bytes than --max-bytes allows",
        ),
    ] {
        let mut folder = MemFolder::new(Vec::new(alloc), Vec::new(alloc));
        let text = run_message(
            alloc,
            status,
            words.as_slice(),
            Some(&mut folder),
            failed_name,
            is_input_failed,
        )?;
        assert_eq!(rt; text.as_str(), expected);
    }
    Ok(())
}
