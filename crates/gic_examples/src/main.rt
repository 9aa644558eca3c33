//! Runs each scenario of a folder, or judges each trace, and compares what is written with the text beside it; saves and resumes each that is run in order after each number of its
//! steps; and compares its picture with the SVG, where there is one.
#![tactic(auto)]

mod pictures;
mod saves;

use crate::pictures::is_picture;
use crate::saves::{rest_of, steps_in};
use gic_top::{NOTHING_SHOWN, OK, OpenGate, SureSink, SureSource, run_tool};
use std::alloc::{AllocError, Global};
use std::process::ExitCode;
use std::sync::Wait;
use std::thread::Threads;
use std::{env, fs};

/// How the name of a scenario ends, and that of its text and of its picture.
const SCENARIO: &str = ".json";

const TEXT: &str = ".txt";

const PICTURE: &str = ".svg";

/// How the name of a scenario begins that is run on threads. Its text is the same in every schedule.
const ON_THREADS: &str = "threads-";

/// How the name begins of what has links of physical interrupts.
const WITH_LINKS: &str = "host-";

/// How the name begins of a scenario of which the image after its first step is written.
const SAVED: &str = "save-";

/// How the name of an image begins.
const RESUMED: &str = "resume-";

/// How the name of a trace begins.
const JUDGED: &str = "check-";

/// The words for these, and those for every other one.
const THREADS: [&str; 3] = ["threads", "3", "2"];

const HOST: [&str; 1] = ["host"];

const SAVE: [&str; 2] = ["save", "1"];

const RESUME: [&str; 1] = ["resume"];

const CHECK: [&str; 1] = ["check"];

const IN_ORDER: [&str; 1] = ["run"];

/// The words for an input of this name.
fn words_for(name: &str) -> &'static [&'static str] {
    if name.starts_with(ON_THREADS) {
        &THREADS
    } else if name.starts_with(WITH_LINKS) {
        &HOST
    } else if name.starts_with(SAVED) {
        &SAVE
    } else if name.starts_with(RESUMED) {
        &RESUME
    } else if name.starts_with(JUDGED) {
        &CHECK
    } else {
        &IN_ORDER
    }
}

/// Words as a list of their own.
fn words_of(alloc: Global, words: &[&str]) -> Result<Vec<String>, AllocError> {
    let mut all = Vec::new(alloc);
    for word in words {
        all.push(String::from_str(alloc, word)?)?;
    }
    Ok(all)
}

/// The names in a folder that end so, without their ending, in order.
fn names_in(rt: &HostRuntime, folder: &str, ending: &str) -> anyhow::Result<Vec<String>> {
    let mut names = Vec::new(rt.alloc());
    for entry in fs::read_dir(rt, folder)? {
        let entry = entry?;
        if let Some(name) = entry.file_name().strip_suffix(ending) {
            names.push(String::from_str(rt.alloc(), name)?)?;
        }
    }
    names.sort()?;
    Ok(names)
}

/// The bytes of a file of a folder.
fn bytes_of(rt: &HostRuntime, folder: &str, name: &str, ending: &str) -> anyhow::Result<Vec<u8>> {
    let path = format!(in rt.alloc(); "{folder}/{name}{ending}")?;
    Ok(fs::read(rt, path)?)
}

/// What the tool writes for these words and this input, and its status.
fn run<R: Threads + Wait + Sync>(
    rt: &R,
    alloc: Global,
    words: &[&str],
    input: &[u8],
) -> anyhow::Result<(u8, Vec<u8>)> {
    let words = words_of(alloc, words)?;
    let mut source = SureSource::of(input.to_vec(alloc)?);
    let mut sink = SureSink::new(alloc);
    let mut shown = NOTHING_SHOWN;
    let status = run_tool(
        rt,
        alloc,
        words.as_slice(),
        &mut source,
        &mut sink,
        &OpenGate,
        &mut shown,
    );
    let written = match sink.taken() {
        Some(bytes) => bytes.to_vec(alloc)?,
        None => Vec::new(alloc),
    };
    Ok((status, written))
}

/// Whether what is written of a scenario that is saved after so many steps, and resumed, is the rest of its text.
fn goes_on<R: Threads + Wait + Sync>(
    rt: &R,
    alloc: Global,
    input: &[u8],
    text: &str,
    done: usize,
) -> anyhow::Result<bool> {
    let steps = format!(in alloc; "{done}")?;
    let (saved, image) = run(rt, alloc, &["save", steps.as_str()], input)?;
    let (resumed, written) = run(rt, alloc, &RESUME, image.as_slice())?;
    let rest = rest_of(alloc, text, done)?;
    Ok(saved == OK && resumed == OK && written.as_slice() == rest.as_bytes())
}

/// The same after each number of its steps, so many.
fn always_goes_on<R: Threads + Wait + Sync>(
    rt: &R,
    alloc: Global,
    input: &[u8],
    text: &str,
    steps: usize,
) -> anyhow::Result<bool> {
    let mut all = true;
    for done in 0..=steps {
        all &= goes_on(rt, alloc, input, text, done)?;
    }
    Ok(all)
}

/// Compares each picture of a folder with its SVG: whether all are so.
fn compare_pictures(rt: &HostRuntime, folder: &str) -> anyhow::Result<bool> {
    let mut all = true;
    for name in &names_in(rt, folder, PICTURE)? {
        let input = bytes_of(rt, folder, name.as_str(), SCENARIO)?;
        let svg = bytes_of(rt, folder, name.as_str(), PICTURE)?;
        let is_so = is_picture(rt.alloc(), input.as_slice(), svg.as_slice())?;
        let what = if is_so { "as drawn" } else { "otherwise" };
        println!(rt; "{name}: picture {what}")?;
        all &= is_so;
    }
    Ok(all)
}

fn main(rt: HostRuntime) -> anyhow::Result<ExitCode> {
    let words: Vec<String> = env::args(&rt)?.skip(1).collect(rt.alloc())?;
    let [folder] = words.as_slice() else {
        println!(rt; "usage: gic_examples FOLDER")?;
        return Ok(ExitCode::from(2));
    };
    let mut all = true;
    for name in &names_in(&rt, folder.as_str(), SCENARIO)? {
        let input = bytes_of(&rt, folder.as_str(), name.as_str(), SCENARIO)?;
        let text = bytes_of(&rt, folder.as_str(), name.as_str(), TEXT)?;
        let words = words_for(name.as_str());
        let (status, written) = run(&rt, rt.alloc(), words, input.as_slice())?;
        let is_so = written == text;
        let what = if is_so { "as written" } else { "otherwise" };
        println!(rt; "{name}: status {status}, {what}")?;
        all &= is_so;
        if status == OK && words == IN_ORDER.as_slice() {
            let text = str::from_utf8(text.as_slice())?;
            let steps = steps_in(text);
            let is_so = always_goes_on(&rt, rt.alloc(), input.as_slice(), text, steps)?;
            let what = if is_so { "as written" } else { "otherwise" };
            println!(rt; "{name}: saved after each of {steps} steps, resumed {what}")?;
            all &= is_so;
        }
    }
    all &= compare_pictures(&rt, folder.as_str())?;
    Ok(if all {
        ExitCode::SUCCESS
    } else {
        ExitCode::FAILURE
    })
}
