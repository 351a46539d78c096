//! What words ask for.

use flcolumn_words::{ElementType, Names, Request, Task, WordsError, task};

#[test]
fn words_ask_for_a_column(rt: HostRuntime) {
    let words = ["flcolumn", "encode", "u16", "--for-only"];
    let asked = task(rt.alloc(), words.as_slice()).ok();
    let other_name = ["flcolumn", "encode", "u16", "--frames-only"];
    assert!(rt; asked == task(rt.alloc(), other_name.as_slice()).ok());
    let request = Request::Encode {
        element: ElementType::U16,
        frames_only: true,
        checked: true,
    };
    let names = Names {
        input: None,
        output: None,
    };
    assert!(rt; asked == Some(Task { request, names }));
}

#[test]
fn words_name_files(rt: HostRuntime) {
    let words = ["flcolumn", "decode", "--output=values", "--input", "column"];
    let asked = task(rt.alloc(), words.as_slice()).ok();
    let request = Request::Decode;
    let names = Names {
        input: Some("column"),
        output: Some("values"),
    };
    assert!(rt; asked == Some(Task { request, names }));
}

#[test]
fn words_ask_for_values(rt: HostRuntime) {
    let words = ["flcolumn", "get", "0", "007", "18446744073709551615"];
    let asked = task(rt.alloc(), words.as_slice()).ok();
    let numbers = vec![in rt.alloc(); 0, 7, u64::MAX].expect(&rt, "memory");
    let names = Names {
        input: None,
        output: None,
    };
    let request = Request::Get(numbers);
    assert!(rt; asked == Some(Task { request, names }));
}

#[test]
fn numbers_have_no_sign(rt: HostRuntime) {
    assert!(rt; task(rt.alloc(), ["flcolumn", "get", "1"].as_slice()).is_ok());
    assert!(rt; task(rt.alloc(), ["flcolumn", "get", "+1"].as_slice()).is_err());
    assert!(rt; task(rt.alloc(), ["flcolumn", "get", "--", "-1"].as_slice()).is_err());
    assert!(rt;
        task(
            rt.alloc(),
            ["flcolumn", "get", "18446744073709551616"].as_slice()
        )
        .is_err()
    );
}

/// Whether an error is about the TYPE, and shows this word.
fn shows_type(error: &WordsError, word: &str) -> bool {
    match error {
        WordsError::Element(shown) => shown.as_str() == word,
        _ => false,
    }
}

/// Whether an error is about an index, and shows this word.
fn shows_number(error: &WordsError, word: &str) -> bool {
    match error {
        WordsError::Number(shown) => shown.as_str() == word,
        _ => false,
    }
}

#[test]
fn wrong_words_are_shown(rt: HostRuntime) {
    let asked = task(rt.alloc(), ["flcolumn", "encode", "u17"].as_slice());
    let shown = match &asked {
        Err(error) => shows_type(error, "u17"),
        Ok(_) => false,
    };
    assert!(rt; shown);
    let asked = task(rt.alloc(), ["flcolumn", "get", "1", "+2", "x"].as_slice());
    let shown = match &asked {
        Err(error) => shows_number(error, "+2"),
        Ok(_) => false,
    };
    assert!(rt; shown);
}

#[test]
fn other_words_are_refused(rt: HostRuntime) {
    assert!(rt; task(rt.alloc(), ["flcolumn", "decode"].as_slice()).is_ok());
    assert!(rt; task(rt.alloc(), ["flcolumn", "get"].as_slice()).is_err());
    assert!(rt; task(rt.alloc(), ["flcolumn", "info", "--input"].as_slice()).is_err());
}
