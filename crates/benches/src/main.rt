//! Measures the arithmetic, reading and writing, the tree with its lists, the kernel's table, the calls on rows, and certificates.
//!
//! `benches NAME time` measures one of them. `benches NAME` runs it in its short form, and `benches` all six, where
//! the numbers are the same in every run.
#![tactic(auto)]

mod arithmetic;
mod certificates;
mod kernel;
mod rows;
mod text;
mod tree;

use std::{env, io};

/// What is measured.
#[derive(Clone, Copy)]
enum Bench {
    Arithmetic,
    Text,
    Tree,
    Kernel,
    Rows,
    Certificates,
}

impl Bench {
    const ALL: [Bench; 6] = [
        Bench::Arithmetic,
        Bench::Text,
        Bench::Tree,
        Bench::Kernel,
        Bench::Rows,
        Bench::Certificates,
    ];

    fn name(self) -> &'static str {
        match self {
            Bench::Arithmetic => "arithmetic",
            Bench::Text => "text",
            Bench::Tree => "tree",
            Bench::Kernel => "kernel",
            Bench::Rows => "rows",
            Bench::Certificates => "certificates",
        }
    }

    fn run(self, rt: &HostRuntime, timed: bool) -> io::Result<()> {
        match self {
            Bench::Arithmetic => arithmetic::run(rt, timed),
            Bench::Text => text::run(rt, timed),
            Bench::Tree => tree::run(rt, timed),
            Bench::Kernel => kernel::run(rt, timed),
            Bench::Rows => rows::run(rt, timed),
            Bench::Certificates => certificates::run(rt, timed),
        }
    }
}

/// Whether the command line has this word.
fn has_word(rt: &HostRuntime, wanted: &str) -> io::Result<bool> {
    let mut found = false;
    for word in env::args(rt)? {
        found = found || word.as_str() == wanted;
    }
    Ok(found)
}

/// Whether the command line names none of them.
fn names_none(rt: &HostRuntime) -> io::Result<bool> {
    let mut none = true;
    for bench in Bench::ALL {
        if has_word(rt, bench.name())? {
            none = false;
        }
    }
    Ok(none)
}

fn main(rt: HostRuntime) -> io::Result<()> {
    let timed = has_word(&rt, "time")?;
    let all = names_none(&rt)?;
    for bench in Bench::ALL {
        if all || has_word(&rt, bench.name())? {
            bench.run(&rt, timed)?;
        }
    }
    Ok(())
}

fn no_memory() -> io::Error {
    io::Error::from(io::ErrorKind::OutOfMemory)
}
