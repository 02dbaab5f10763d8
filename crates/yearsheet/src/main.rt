//! Reads a dossier on standard input and prints its sheet, or its refusal. The first 65,536 bytes settle what is printed of any input.
//! An argument, and a read or a write that fails, is answered by a line on standard error.
#![tactic(auto)]

ghost use Rattle.std.specs.Prelude.{◌≡◌, ◌≤◌, length, take, IfOk, IfSome, OnOk};
ghost use Rattle.std.specs.Io.KnownBytes.{Appends};
ghost use Rattle.wire.specs.Bytes.{Bytes};
ghost use Rattle.printout.specs.Printout.{printout};
ghost use Rattle.yearsheet.specs.Reading.{Taken};

use std::env::FillError;
use std::io::{ErrorKind, Read, Write};
use std::process::ExitCode;
use std::rt::Env;
use std::{fmt, io};

/// Room for the bytes that settle what is printed: a dossier is shorter.
type Space = [u8; 65_536];

/// Why nothing, or not all, was printed.
#[derive(Debug, Drop)]
enum Failure {
    Input(io::Error),
    Output(io::Error),
}

impl fmt::Display for Failure {
    fn fmt<W: fmt::Write>(&self, f: &mut fmt::Formatter<W>) -> fmt::Result {
        match self {
            Failure::Input(error) => write!(f, "yearsheet: standard input: {error}"),
            Failure::Output(error) => write!(f, "yearsheet: standard output: {error}"),
        }
    }
}

/// Whether a read that failed is tried again: one that was interrupted, or that would block.
fn is_passing(error: &io::Error) -> bool {
    matches!(error.kind(), ErrorKind::Interrupted | ErrorKind::WouldBlock)
}

/// What one read brought to the front of a piece: so many bytes, none where it is tried again, or `None` at the input's end.
fn read_piece<R: Read>(input: &mut R, piece: &mut [u8]) -> io::Result<Option<usize>>
    ensures within { IfOk result (λ read. IfSome read (λ count. count ≤ length piece.new)) }
    ensures bytes { IfOk result (λ read. Taken (R.remaining input.old) (R.remaining input.new) read piece.new) }
{
    match input.read(piece) {
        Ok(0) => Ok(None),
        Ok(count) => Ok(Some(count)),
        Err(error) if is_passing(&error) => Ok(Some(0)),
        Err(error) => Err(error),
    }
}

/// Reads until the input ends or the space is full; how many bytes it put at the front.
// Each read is lent all the room that is left, and std's `io::copy` no more than 8 KiB: of a message that a socket brings, what one read leaves is lost.
fn read_input<R: Read>(input: &mut R, space: &mut [u8]) -> io::Result<usize>
    ensures within { IfOk result (λ done. done ≤ length space.new) }
    ensures bytes { IfOk result (λ done. IfSome (R.remaining input.old) (λ all. take done space.new ≡ take (length space.old) all)) }
{
    let mut done = 0;
    // To the end of the input: a loop needs a bound, and no input has as many pieces.
    for _ in 0..u64::MAX {
        match read_piece(input, &mut space[done..])? {
            Some(count) => done += count,
            None => return Ok(done),
        }
    }
    Err(io::Error::from(ErrorKind::TimedOut))
}

/// The front of an input, as far as it settles what is printed: what the space that is lent has room for.
fn read_dossier<R: Read + Drop>(mut input: R, space: &mut Space) -> io::Result<&[u8]>
    ensures within { IfOk result (λ dossier. length dossier.now ≤ 65536) }
    ensures front { IfOk result (λ dossier. IfSome (R.remaining input) (λ all. dossier.now ≡ take 65536 all)) }
{
    let done = read_input(&mut input, space)?;
    Ok(&space[..done])
}

/// Reads, and writes what is printed of the first 65,536 bytes, which is the printout of the whole input, and nothing else.
fn run<R: Read + Drop, W: Write>(input: R, output: &mut W) -> Result<(), Failure>
    ensures front { OnOk result (IfSome (R.remaining input) (λ all. Appends (W.contents output.old) (W.contents output.new) (printout (take 65536 all)))) }
    ensures whole { OnOk result (IfSome (R.remaining input) (λ all. Bytes all → Appends (W.contents output.old) (W.contents output.new) (printout all))) }
{
    let mut space = [0; 65_536];
    let dossier = read_dossier(input, &mut space).map_err(Failure::Input)?;
    let text = printout::printout_of(dossier);
    output.write_all(text.as_bytes()).map_err(Failure::Output)
}

/// Whether there is an argument, of any length, besides the program's name.
fn has_argument<R: Env>(rt: &R) -> bool {
    let mut start = [0u8; 1];
    !matches!(rt.arg(1, &mut start), Err(FillError::NotPresent))
}

fn start<R: Env + Eprint + Input + Print>(rt: &R) -> Result<(), Failure> {
    if has_argument(rt) {
        let _ = eprintln!(rt; "usage: yearsheet < DOSSIER");
        return Ok(());
    }
    run(rt.reader(), &mut io::writer(rt))
}

/// What is said of a failure, without the system's number for it, which the library puts after its words.
fn without_number(line: &str) -> &str {
    match line.split_once(" (os error ") {
        Some((words, _)) => words,
        None => line,
    }
}

fn main(rt: HostRuntime) -> ExitCode {
    match start(&rt) {
        Ok(()) => ExitCode::SUCCESS,
        Err(failure) => {
            let _ = match format!(in rt.alloc(); "{failure}") {
                Ok(line) => eprintln!(rt; "{}", without_number(&line)),
                Err(_) => eprintln!(rt; "{failure}"),
            };
            ExitCode::FAILURE
        }
    }
}
