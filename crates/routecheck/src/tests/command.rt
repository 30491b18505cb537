// What command lines ask for, and what is said of those that ask for nothing.
use console::command::{Command, Options};
use console::problem::Problem;
use std::alloc::{AllocError, Global};
use std::process::Abort;
use std::test::Fail;

// Words with a space between them, and what they ask for.
type Case = (&'static str, &'static str);

const PLANS: [Case; 6] = [
    ("", "standard input false"),
    ("-", "standard input false"),
    ("a.plan", "a.plan false"),
    ("--explain", "standard input true"),
    ("a.plan --explain", "a.plan true"),
    ("--help a.plan", "help"),
];

// `board` is a plan where it is not the first word, or has a path.
const BOARDS: [Case; 8] = [
    ("board a.plan b", "board a.plan b false"),
    ("board --explain a.plan b", "board a.plan b true"),
    (
        "board a.plan - --explain",
        "board a.plan standard input true",
    ),
    ("board - b", "board standard input b false"),
    ("board board board", "board board board false"),
    ("board --help", "help"),
    ("./board", "./board false"),
    ("--explain board", "board true"),
];

const WRONG_WORDS: [Case; 7] = [
    (
        "--explian a.plan",
        "there is no option --explian; --help says what there is",
    ),
    (
        "a.plan b.plan",
        "b.plan is a second plan; one plan is read at a time",
    ),
    (
        "board",
        "a board needs a plan and a script; --help says how",
    ),
    (
        "board a.plan",
        "a board needs a plan and a script; --help says how",
    ),
    (
        "board a.plan b c",
        "c is a second script; one script is played at a time",
    ),
    (
        "board - -",
        "the plan and the script cannot both be standard input",
    ),
    (
        "board a.plan -b",
        "there is no option -b; --help says what there is",
    ),
];

// The options of words; or what is said of a word.
fn options(heap: Global, words: &str) -> Result<Result<Options, Problem>, AllocError> {
    let mut options = Options::default();
    for word in words.split_ascii_whitespace() {
        if let Err(problem) = options.add(word.to_string(heap)?) {
            return Ok(Err(problem));
        }
    }
    Ok(Ok(options))
}

// What the words ask for, as text: `help`, or what is to be read and whether it is explained.
fn asked(heap: Global, words: &str) -> Result<String, AllocError> {
    match options(heap, words)?.and_then(|options| options.command()) {
        Ok(Command::Help) => "help".to_string(heap),
        Ok(Command::Check(request)) => format!(in heap; "{} {}", request.source, request.explain),
        Ok(Command::Board(request)) => format!(in heap;
            "board {} {} {}",
            request.plan, request.script, request.explain
        ),
        Err(problem) => format!(in heap; "{problem}"),
    }
}

fn check_cases(rt: &impl Abort, heap: Global, cases: &[Case]) -> Result<(), Fail> {
    for (words, wanted) in cases {
        let found = asked(heap, words)?;
        assert_eq!(rt; found.as_str(), *wanted);
    }
    Ok(())
}

#[test]
fn plans(rt: HostRuntime) -> Result<(), Fail> {
    check_cases(&rt, rt.alloc(), &PLANS)
}

#[test]
fn boards(rt: HostRuntime) -> Result<(), Fail> {
    check_cases(&rt, rt.alloc(), &BOARDS)
}

#[test]
fn wrong_words(rt: HostRuntime) -> Result<(), Fail> {
    check_cases(&rt, rt.alloc(), &WRONG_WORDS)
}
