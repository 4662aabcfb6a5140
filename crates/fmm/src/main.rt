//! The program: it opens what its words name, and does all else by `fmm_program::run`.
#![tactic(auto)]

use fmm_program::{Opening, Status, Words, plan, run};
use io_ports::{
    BrokenSink, BrokenSource, DropSink, ReadSource, Sink, Source, SureSource, WriteSink,
};
use row_phases::OpenGate;
use std::alloc::{AllocError, Global};
use std::fs::File;
use std::io::BufWriter;
use std::process::ExitCode;
use std::thread::Threads;
use std::{env, io};

const INPUT: &str = "standard input";

/// The words after the program's name. Words that are no text are a faulty command line, as no words are.
fn words(rt: &HostRuntime) -> Option<Words> {
    let mut words = Words::new(rt.alloc());
    let args = match env::args(rt) {
        Ok(args) => args,
        Err(e) if e.kind() == io::ErrorKind::OutOfMemory => return None,
        Err(_) => return Some(words),
    };
    for word in args.skip(1) {
        words.push(rt.alloc(), word.as_str()).ok()?;
    }
    Some(words)
}

/// Runs the command over these sources of points and of a certificate, with the certificate that it makes to this sink.
fn answer<R: Threads + Sync, A: Source, B: Source, O: Sink, C: Sink>(
    threads: &R,
    alloc: Global,
    words: &Words,
    points: &mut A,
    cert_in: &mut B,
    out: &mut O,
    cert_out: &mut C,
) -> Status {
    run(
        threads, alloc, words, points, cert_in, out, cert_out, &OpenGate,
    )
}

/// Runs a command that has no certificate over this source of points.
fn answer_alone<R: Threads + Sync, A: Source, O: Sink>(
    threads: &R,
    alloc: Global,
    words: &Words,
    points: &mut A,
    out: &mut O,
) -> Status {
    let mut nothing = SureSource::new(Vec::new(alloc));
    answer(
        threads,
        alloc,
        words,
        points,
        &mut nothing,
        out,
        &mut DropSink,
    )
}

/// The name of the certificate's file: that of the points and `.cert`.
fn certificate_name(alloc: Global, file: &str) -> Result<String, AllocError> {
    let mut name = String::new(alloc);
    name.push_str(file)?;
    name.push_str(".cert")?;
    Ok(name)
}

/// Solves these points, with the certificate to the file of that name. What stood in it is lost, also where the points
/// can't be read.
fn solve_points<R: Threads + Sync, A: Source, O: Sink>(
    rt: &HostRuntime,
    threads: &R,
    words: &Words,
    points: &mut A,
    name: &str,
    out: &mut O,
) -> Status {
    let alloc = rt.alloc();
    let mut nothing = SureSource::new(Vec::new(alloc));
    let Ok(file) = File::create(rt, name) else {
        let mut cert_out = BrokenSink::new();
        return answer(
            threads,
            alloc,
            words,
            points,
            &mut nothing,
            out,
            &mut cert_out,
        );
    };
    let Ok(lines) = BufWriter::new(alloc, file) else {
        return Status::Memory;
    };
    let mut cert_out = WriteSink::new(lines);
    answer(
        threads,
        alloc,
        words,
        points,
        &mut nothing,
        out,
        &mut cert_out,
    )
}

/// Solves the points of a file, with the certificate to the file of its name.
fn solve_file<R: Threads + Sync, O: Sink>(
    rt: &HostRuntime,
    threads: &R,
    words: &Words,
    file: &str,
    out: &mut O,
) -> Status {
    let Ok(name) = certificate_name(rt.alloc(), file) else {
        return told(rt, Status::Memory, file, "can't be read");
    };
    match File::open(rt, file) {
        Ok(points) => {
            let mut points = ReadSource::new(points);
            let status = solve_points(rt, threads, words, &mut points, name.as_str(), out);
            told(rt, status, file, "can't be read")
        }
        Err(_) => {
            let mut points = BrokenSource::new();
            let status = solve_points(rt, threads, words, &mut points, name.as_str(), out);
            told(rt, status, file, "can't be opened")
        }
    }
}

/// Checks the certificate in the file of that name over these points.
fn check_points<R: Threads + Sync, A: Source, O: Sink>(
    rt: &HostRuntime,
    threads: &R,
    words: &Words,
    points: &mut A,
    name: &str,
    out: &mut O,
) -> Status {
    let alloc = rt.alloc();
    match File::open(rt, name) {
        Ok(file) => {
            let mut cert_in = ReadSource::new(file);
            answer(
                threads,
                alloc,
                words,
                points,
                &mut cert_in,
                out,
                &mut DropSink,
            )
        }
        Err(_) => {
            let mut cert_in = BrokenSource::new();
            answer(
                threads,
                alloc,
                words,
                points,
                &mut cert_in,
                out,
                &mut DropSink,
            )
        }
    }
}

/// Checks the certificate beside a file over the points in the file.
fn check_file<R: Threads + Sync, O: Sink>(
    rt: &HostRuntime,
    threads: &R,
    words: &Words,
    file: &str,
    out: &mut O,
) -> Status {
    let fault = "or its certificate can't be read";
    let Ok(name) = certificate_name(rt.alloc(), file) else {
        return told(rt, Status::Memory, file, fault);
    };
    let status = match File::open(rt, file) {
        Ok(points) => {
            let mut points = ReadSource::new(points);
            check_points(rt, threads, words, &mut points, name.as_str(), out)
        }
        Err(_) => {
            let mut points = BrokenSource::new();
            check_points(rt, threads, words, &mut points, name.as_str(), out)
        }
    };
    told(rt, status, file, fault)
}

/// Says on standard error why a run failed, of a read by this fault of `source`, and gives its status. A failed write
/// there changes nothing.
fn told(rt: &HostRuntime, status: Status, source: &str, fault: &str) -> Status {
    let _ = match status {
        Status::Memory => eprintln!(rt; "fmm: out of memory"),
        Status::ReadFault => eprintln!(rt; "fmm: {source} {fault}"),
        Status::WriteFault => eprintln!(rt; "fmm: the report or the certificate can't be written"),
        _ => Ok(()),
    };
    status
}

/// Opens what the words name, and carries them out.
fn carry_out<R: Threads + Sync, O: Sink>(
    rt: &HostRuntime,
    threads: &R,
    words: &Words,
    out: &mut O,
) -> Status {
    let alloc = rt.alloc();
    match plan(words) {
        Opening::Nothing => {
            let mut nothing = SureSource::new(Vec::new(alloc));
            let status = answer_alone(threads, alloc, words, &mut nothing, out);
            told(rt, status, INPUT, "can't be read")
        }
        Opening::SolveInput => {
            let mut points = ReadSource::new(rt.stdin());
            let status = answer_alone(threads, alloc, words, &mut points, out);
            told(rt, status, INPUT, "can't be read")
        }
        Opening::SolveFile { file } => solve_file(rt, threads, words, file, out),
        Opening::CheckFile { file } => check_file(rt, threads, words, file, out),
    }
}

fn main(rt: HostRuntime) -> ExitCode {
    let status = match words(&rt) {
        Some(words) => carry_out(&rt, &rt, &words, &mut WriteSink::new(rt.stdout())),
        None => told(&rt, Status::Memory, INPUT, "can't be read"),
    };
    ExitCode::from(status.code())
}

#[cfg(test)]
mod tests {
    use super::*;
    use io_ports::MemSink;
    use std::fs;
    use std::process::Abort;
    use std::test::Fail;

    /// A cell with a charge at its centre: its row is 2^40 and zeros.
    const CERTIFICATE: &[u8] =
        b"fmmcert 1 8 2 1 1 1\nnode 0 0 0 0\nat 0\nat 0\nm 1099511627776 1099511627776 0 0 0 0 0 0 0 0 0 0 0 0 0 0 0 0 0 0 0 0 0 0 0 0 0 0 0 0 0 0\nu 0 0\nl 0 0 0 0 0 0 0 0 0 0 0 0 0 0 0 0 0 0 0 0 0 0 0 0 0 0 0 0 0 0 0 0 0\nt 1099511627776 1099511627776 0 0 1000000000000 1000000000000 0 0\nend\n";

    const POINTS: &str = "fmm 1 field\ncharge 0 0 1\ntarget 1 0\n";

    const REPORT: &[u8] =
        b"fmm report 1 field order 8 cap 8\ntarget 1 0 re 1.000000000000 1.000000000000 im 0.000000000000 0.000000000000\nwork translations 0 pairs 1\nend\n";

    const SOLVE: &[&str] = &["solve", "8", "8", "points.txt"];

    const CHECK: &[&str] = &["check", "points.txt"];

    /// These words end so, and this goes out.
    fn ends(
        rt: &HostRuntime,
        host: &(impl Abort + Threads + Sync),
        parts: &[&str],
        status: Status,
        written: &[u8],
    ) -> Result<(), Fail> {
        let alloc = rt.alloc();
        let mut words = Words::new(alloc);
        for word in parts {
            words.push(alloc, word)?;
        }
        let mut out = MemSink::with_room(alloc, 4096, 64, Vec::new(alloc))?;
        assert_eq!(host; carry_out(rt, host, &words, &mut out), status);
        assert_eq!(host; out.held(), written);
        Ok(())
    }

    /// A run of a command, with what stands in points.txt before and in points.txt.cert before and after; a file is
    /// missing where there is nothing to stand in it before.
    #[derive(Clone, Copy)]
    struct Case<'a> {
        words: &'a [&'a str],
        points: Option<&'a str>,
        before: Option<&'a [u8]>,
        status: Status,
        written: &'a [u8],
        after: &'a [u8],
    }

    const CASES: [Case<'static>; 5] = [
        Case {
            words: SOLVE,
            points: Some(POINTS),
            before: None,
            status: Status::Done,
            written: REPORT,
            after: CERTIFICATE,
        },
        Case {
            words: SOLVE,
            points: Some("fmm 1 field\ncharge 0 0\n"),
            before: Some(CERTIFICATE),
            status: Status::Refused,
            written: b"refused line 2 syntax\n",
            after: b"",
        },
        Case {
            words: SOLVE,
            points: None,
            before: Some(CERTIFICATE),
            status: Status::ReadFault,
            written: b"",
            after: b"",
        },
        Case {
            words: CHECK,
            points: None,
            before: Some(CERTIFICATE),
            status: Status::ReadFault,
            written: b"",
            after: CERTIFICATE,
        },
        Case {
            words: CHECK,
            points: Some(POINTS),
            before: Some(b"end\n"),
            status: Status::Rejected,
            written: b"rejected syntax line 1\n",
            after: b"end\n",
        },
    ];

    /// The run of a case is as it says.
    fn is_met(
        rt: &HostRuntime,
        host: &(impl Abort + Threads + Sync),
        case: &Case<'_>,
    ) -> Result<(), Fail> {
        if let Some(text) = case.points {
            fs::write(rt, "points.txt", text)?;
        }
        if let Some(text) = case.before {
            fs::write(rt, "points.txt.cert", text)?;
        }
        ends(rt, host, case.words, case.status, case.written)?;
        assert_eq!(host; fs::read(rt, "points.txt.cert")?.as_slice(), case.after);
        fs::remove_file(rt, "points.txt.cert")?;
        if case.points.is_some() {
            fs::remove_file(rt, "points.txt")?;
        }
        Ok(())
    }

    #[test]
    fn files_are_opened(rt: HostRuntime) -> Result<(), Fail> {
        for case in &CASES {
            is_met(&rt, &rt, case)?;
        }
        Ok(())
    }

    /// A certificate that can't be opened, for writing and for reading.
    #[test]
    fn a_certificate_may_be_shut(rt: HostRuntime) -> Result<(), Fail> {
        fs::write(&rt, "shut.txt", POINTS)?;
        ends(&rt, &rt, &["check", "shut.txt"], Status::ReadFault, b"")?;
        fs::create_dir(&rt, "shut.txt.cert")?;
        ends(
            &rt,
            &rt,
            &["solve", "8", "8", "shut.txt"],
            Status::WriteFault,
            b"",
        )?;
        ends(&rt, &rt, &["check", "shut.txt"], Status::ReadFault, b"")?;
        fs::remove_dir(&rt, "shut.txt.cert")?;
        fs::remove_file(&rt, "shut.txt")?;
        Ok(())
    }

    #[test]
    fn a_solve_is_accepted(rt: HostRuntime) -> Result<(), Fail> {
        fs::write(&rt, "own.txt", POINTS)?;
        ends(
            &rt,
            &rt,
            &["solve", "8", "8", "own.txt"],
            Status::Done,
            REPORT,
        )?;
        ends(
            &rt,
            &rt,
            &["check", "own.txt"],
            Status::Done,
            b"accepted targets 1\n",
        )?;
        fs::remove_file(&rt, "own.txt")?;
        fs::remove_file(&rt, "own.txt.cert")?;
        Ok(())
    }
}
