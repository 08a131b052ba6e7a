//! The examples of the pages, run.
use crate::mistakes::{
    DATA, IN_DATA_1, IN_DATA_2, IN_MODEL_1, IN_MODEL_2, IN_MODEL_3, IN_MODEL_4, IN_MODEL_5, MODEL,
};
use crate::request_lines::{NO_REQUESTS, REFUSED};
use crate::requests::{EXAMPLES, RESPONSES};
use crate::{first_model, readme};
use apply_io::MemFolder;
use apply_service::Status;
use run_messages::run_message;
use run_support::{Case, files, outcome, words};
use std::alloc::Global;
use std::process::Abort;
use std::test::Fail;
use std::thread::Threads;

/// A run over files, whose calls all succeed.
fn plain<'a>(model: &'a str, data: &'a str, input: &'a [u8], more: &'a [&'a str]) -> Case<'a> {
    Case {
        words: more,
        model,
        data,
        input,
        most: 4096,
        folder_fails: 0,
        input_fails: 0,
        output_fails: 0,
    }
}

#[test]
fn the_first_example_is_answered_as_shown(rt: HostRuntime) -> Result<(), Fail> {
    let case = plain(
        readme::MODEL,
        readme::DATA,
        readme::REQUESTS.as_bytes(),
        &[],
    );
    let run = outcome(&rt, rt.alloc(), &case)?;
    assert_eq!(rt; run.status, Status::Served);
    assert_eq!(rt; run.output.as_slice(), readme::ANSWERS.as_bytes());
    Ok(())
}

#[test]
fn the_first_model_is_answered_as_shown(rt: HostRuntime) -> Result<(), Fail> {
    let case = plain(
        first_model::MODEL,
        first_model::DATA,
        first_model::REQUESTS.as_bytes(),
        &[],
    );
    let run = outcome(&rt, rt.alloc(), &case)?;
    assert_eq!(rt; run.status, Status::Served);
    assert_eq!(rt; run.output.as_slice(), first_model::ANSWERS.as_bytes());
    Ok(())
}

/// The text with the first piece of it that reads so replaced.
fn replaced(alloc: Global, text: &str, old: &str, new: &str) -> Result<String, Fail> {
    let mut out = String::new(alloc);
    match text.split_once(old) {
        Some((before, after)) => {
            out.push_str(before)?;
            out.push_str(new)?;
            out.push_str(after)?;
        }
        None => out.push_str(text)?,
    }
    Ok(out)
}

/// How a run in mode check ends, and what standard error is told of it.
fn told<R: Threads + Sync>(
    rt: &R,
    alloc: Global,
    model: &str,
    data: &str,
) -> Result<(Status, String), Fail> {
    let case = plain(model, data, b"", &["--mode", "check"]);
    let status = outcome(rt, alloc, &case)?.status;
    let words = words(alloc, &case)?;
    let mut folder = MemFolder::new(files(alloc, &case)?, Vec::new(alloc));
    let text = run_message(
        alloc,
        status,
        words.as_slice(),
        Some(&mut folder),
        None,
        false,
    )?;
    Ok((status, text))
}

/// Each mistake in the model file is told as shown.
fn model_mistakes<'a, R: Threads + Sync + Abort>(
    rt: &R,
    alloc: Global,
    mistakes: &'a [(&'a str, &'a str, &'a str)],
) -> Result<(), Fail> {
    for (old, new, expected) in mistakes {
        let model = replaced(alloc, MODEL, old, new)?;
        let (status, text) = told(rt, alloc, model.as_str(), DATA)?;
        let expected = format!(in alloc; "apply_serve: model file \"m\": {expected}")?;
        assert_eq!(rt; text.as_str(), expected.as_str());
        assert_eq!(rt; status, Status::ModelRefused, "{expected}");
    }
    Ok(())
}

/// Each mistake in the data file is told as shown.
fn data_mistakes<'a, R: Threads + Sync + Abort>(
    rt: &R,
    alloc: Global,
    mistakes: &'a [(&'a str, &'a str, &'a str)],
) -> Result<(), Fail> {
    for (old, new, expected) in mistakes {
        let data = replaced(alloc, DATA, old, new)?;
        let (status, text) = told(rt, alloc, MODEL, data.as_str())?;
        let expected = format!(in alloc; "apply_serve: data file \"d\": {expected}")?;
        assert_eq!(rt; text.as_str(), expected.as_str());
        assert_eq!(rt; status, Status::DataRefused, "{expected}");
    }
    Ok(())
}

#[test]
fn mistakes_in_a_model_file_are_told_as_shown(rt: HostRuntime) -> Result<(), Fail> {
    for mistakes in [IN_MODEL_1, IN_MODEL_2, IN_MODEL_3, IN_MODEL_4, IN_MODEL_5] {
        model_mistakes(&rt, rt.alloc(), mistakes)?;
    }
    Ok(())
}

#[test]
fn mistakes_in_a_data_file_are_told_as_shown(rt: HostRuntime) -> Result<(), Fail> {
    for mistakes in [IN_DATA_1, IN_DATA_2] {
        data_mistakes(&rt, rt.alloc(), mistakes)?;
    }
    Ok(())
}

/// What the service answers a line over the sample, from the code to the end of the body.
fn answer<R: Threads + Sync>(rt: &R, alloc: Global, line: &str) -> Result<String, Fail> {
    let run = outcome(rt, alloc, &plain(MODEL, DATA, line.as_bytes(), &[]))?;
    Ok(String::from_utf8(run.output).unwrap_or(String::new(alloc)))
}

#[test]
fn requests_worth_copying_are_answered_as_shown(rt: HostRuntime) -> Result<(), Fail> {
    let case = plain(MODEL, DATA, EXAMPLES.as_bytes(), &[]);
    let run = outcome(&rt, rt.alloc(), &case)?;
    assert_eq!(rt; run.status, Status::Served);
    assert_eq!(rt; run.output.as_slice(), RESPONSES.as_bytes());
    Ok(())
}

/// The code and the body of an answer.
fn parts(text: &str) -> (&str, &str) {
    match text.split_once('\n') {
        Some((head, body)) => (
            head.split(' ').next().unwrap_or(""),
            body.strip_suffix("\n").unwrap_or(body),
        ),
        None => ("", text),
    }
}

#[test]
fn lines_that_are_no_requests_are_answered_as_shown(rt: HostRuntime) -> Result<(), Fail> {
    let alloc = rt.alloc();
    for (line, target, right) in NO_REQUESTS {
        let text = answer(&rt, alloc, line)?;
        let body = format!(in alloc;
            "{{\"error\":{{\"code\":\"Syntax\",\"message\":\"the text is no pipeline\",\"target\":\"{target}\"}}}}"
        )?;
        assert_eq!(rt; parts(text.as_str()), ("400", body.as_str()), "{line}");
        let text = answer(&rt, alloc, right)?;
        assert_eq!(rt; parts(text.as_str()).0, "200", "{right}");
    }
    Ok(())
}

#[test]
fn refused_requests_are_answered_as_shown(rt: HostRuntime) -> Result<(), Fail> {
    let alloc = rt.alloc();
    for (line, number, body, right) in REFUSED {
        let text = answer(&rt, alloc, line)?;
        assert_eq!(rt; parts(text.as_str()), (*number, *body), "{line}");
        let text = answer(&rt, alloc, right)?;
        assert_eq!(rt; parts(text.as_str()).0, "200", "{right}");
    }
    Ok(())
}
