//! Words of each command, and what is shown.
use std::alloc::Global;
use std::process::Abort;
use store_words::words::plan;
use store_words::{Shown, Verb, asked};

/// The words of a line, cut at each space.
fn words_of(rt: &impl Abort, alloc: Global, line: &str) -> Vec<String> {
    let mut words = Vec::new(alloc);
    for word in line.split(' ') {
        let word = String::from_str(alloc, word).expect(rt, "memory");
        words.push(word).expect(rt, "memory");
    }
    words
}

#[test]
fn words_are_told(rt: HostRuntime) {
    let sizes = "WordSizes { minimum: 1048576, maximum: 8388608, use_rate: 750 }";
    let least = "WordSizes { minimum: 0, maximum: 1, use_rate: 0 }";
    let most = "WordSizes { minimum: 1073741824, maximum: 1073741824, use_rate: 1000 }";
    let cases = [
        ("run d 2", "Run", "channels: 2, ", sizes),
        ("run d 64 0 1 0", "Run", "channels: 64, ", least),
        (
            "run d 1 1073741824 1073741824 1000",
            "Run",
            "channels: 1, ",
            most,
        ),
        ("work d 4 16", "Work", "channels: 4, workers: 16, ", sizes),
        (
            "work d 4 1 0 1 0",
            "Work",
            "channels: 4, workers: 1, ",
            least,
        ),
        ("check d 8", "Check", "channels: 8", ""),
        ("export d 16", "Export", "channels: 16", ""),
        (
            "trial d 32 7 7",
            "Trial",
            "channels: 32, lines: 7, number: 7",
            "",
        ),
    ];
    for (line, name, numbers, sizes) in cases {
        let given = plan(rt.alloc(), words_of(&rt, rt.alloc(), line).as_slice()).expect(&rt, line);
        let label = if sizes.is_empty() { "" } else { "sizes: " };
        let wanted = format!(in rt.alloc();
            "{name} {{ dir: Word {{ text: \"d\" }}, {numbers}{label}{sizes} }}"
        ).expect(&rt, "memory");
        let shown = format!(in rt.alloc(); "{given:?}").expect(&rt, "memory");
        assert!(rt; shown.as_str() == wanted.as_str());
    }
    let given = plan(
        rt.alloc(),
        words_of(&rt, rt.alloc(), "generate 1000000 2147483647").as_slice(),
    )
    .expect(&rt, "generate");
    let shown = format!(in rt.alloc(); "{given:?}").expect(&rt, "memory");
    assert!(rt; shown.as_str() == "Generate { lines: 1000000, number: 2147483647 }");
}

#[test]
fn help_is_shown(rt: HostRuntime) {
    let cases = [
        ("--help", Some(Shown::Program)),
        ("-h", Some(Shown::Program)),
        ("help", Some(Shown::Program)),
        ("--version", Some(Shown::Version)),
        ("trial --help", Some(Shown::Command(Verb::Trial))),
        ("help work", Some(Shown::Command(Verb::Work))),
        ("help me", None),
        ("check d 1", None),
    ];
    for (line, wanted) in cases {
        assert!(rt; asked(words_of(&rt, rt.alloc(), line).as_slice()) == wanted);
    }
    for verb in Verb::ALL {
        let text = Shown::Command(verb).text();
        assert!(rt;
            Shown::Program.text().contains(verb.name())
                && text.contains(verb.name())
                && text.contains("Example:")
        );
    }
    assert!(rt; Shown::Version.text() == "store_main 0.1.0");
}
