use super::*;
use std::alloc::Global;
use std::test::Fail;

/// What is said of a line of words, each but the last followed by a space.
fn answer(alloc: Global, line: &str) -> Result<String, Fail> {
    let mut words = Vec::new(alloc);
    for word in line.split(' ') {
        words.push(String::from_str(alloc, word)?)?;
    }
    match read_words(alloc, words.as_slice()) {
        Ok(command) => Ok(format!(in alloc; "{command:?}")?),
        Err(Refused::Form { text }) => Ok(text),
        Err(Refused::Action) => Ok(String::from_str(alloc, "no action")?),
        Err(Refused::NoMemory) => Ok(String::from_str(alloc, "no memory")?),
    }
}

/// Lines in each form, and the head of what is said of them.
#[test]
fn lines(rt: HostRuntime) -> Result<(), Fail> {
    let alloc = rt.alloc();
    let defaults = "kind: Mixed, budget: 1000000, rounds: 20, order: 0";
    let solve = format!(in alloc; "Solve {{ game: \"g\", options: Options {{ {defaults} }} }}")?;
    for (line, said) in [
        ("solve g", solve.as_str()),
        ("--rounds=20 -- solve g", solve.as_str()),
        ("check g -", "Check { game: \"g\", cert: \"-\" }"),
        (
            "best g --budget 0 -",
            "Best { game: \"g\", cert: \"-\", options",
        ),
        ("migrate --kind pure g", "Migrate { game: \"g\" }"),
        ("solve g c", "no action"),
        ("best g", "no action"),
        ("play g", "no action"),
        ("solve", "error: "),
        ("solve g --rounds 10001", "error: "),
        ("solve g --kind pure --kind pure", "error: "),
        ("--help", "Usage: zero "),
    ] {
        let text = answer(alloc, line)?;
        assert!(rt; text.as_str().starts_with(said));
    }
    Ok(())
}
