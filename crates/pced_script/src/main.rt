//! `pced script` and `pced decode` by themselves, without the server: a program that is built in a third of the time.
//! `./pced` runs it as long as the whole program isn't built. What it prints, and its statuses, are those of `pced`; it takes
//! the words `script`, `script --explain` and `decode` only.
#![tactic(auto)]

use script_commands::{INPUT, decode, explain_script, fail, open_standard, print_script};
use std::process::ExitCode;
use std::{env, io};

fn run(rt: &HostRuntime) -> io::Result<u8> {
    let words: Vec<String> = env::args(rt)?.collect(rt.alloc())?;
    answer(rt, &words)
}

fn answer(rt: &HostRuntime, words: &[String]) -> io::Result<u8> {
    let first = words.get(1).map(String::as_str);
    let second = words.get(2).map(String::as_str);
    match (words.len(), first, second) {
        (2, Some("script"), _) => print_script(rt),
        (3, Some("script"), Some("--explain")) => explain_script(rt),
        (2, Some("decode"), _) => decode(rt),
        _ => {
            eprintln!(rt; "the words are script, script --explain or decode")?;
            Ok(INPUT)
        }
    }
}

fn main(rt: HostRuntime) -> ExitCode {
    open_standard(&rt);
    match run(&rt) {
        Ok(status) => ExitCode::from(status),
        Err(error) => ExitCode::from(fail(&rt, &error)),
    }
}
