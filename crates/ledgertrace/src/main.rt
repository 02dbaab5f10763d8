//! Makes the calls that standard input lists on one ledger, and prints a line for each but the plans: for testers.
//!
//! A call is `O` (open), `Y` (year) or `P` (plan), a big-endian 32-bit length up to 65,536 and that many bytes; or `C` (close)
//! and the big-endian 32-bit length of a buffer, up to 65,536. Before any `O` the ledger is the empty one. The bytes of a `P` are
//! the plan that each year after it is lent, until the next `P`; before any `P`, and after one of length 0, there is none. An `O`
//! keeps the plan. The list ends where a call is cut or is none of these. A line is `open N`, `year N` or `close N`, N the call's
//! number, and a `P` has none; after an accepted closing of k years the 8 × k + 4 numbers that it wrote follow, each after a
//! space. A closing is lent a buffer full of one byte; where a byte beyond the report, or after a refusal any byte, is another
//! one, the line `buffer changed` follows.
#![tactic(auto)]

ghost use Rattle.std.specs.Prelude.{◌≡◌, ◌≤◌, length, take, drop, IfOk, IfSome, OnOk};
ghost use Rattle.std.specs.Io.KnownBytes.{Appends};
ghost use Rattle.reckoner.specs.Calls.{open_call, year_call};
ghost use Rattle.ledgertrace.specs.Closing.{closing_lines, closed_lines};
ghost use Rattle.ledgertrace.specs.Plans.{Fits, plan_after};

use arrayvec::ArrayVec;
use console::FILLING;
use reckoner::{Ledger, Step};
use std::io;
use std::io::{Read, Write};

/// What a call of the list asks for, with the bytes that it brings; a closing is lent its buffer.
#[derive(Drop)]
enum Call<'a> {
    Open(&'a [u8]),
    Year(&'a [u8]),
    Plan(&'a [u8]),
    Close(&'a mut [u8]),
}

/// The ledger, and the plan that each year is lent.
#[derive(Drop)]
struct Trace {
    ledger: Ledger,
    plan: ArrayVec<u8, 65_536>,
}

/// Prints the line of a closing with the figures up to a place, and one more where the buffer is no longer filled from there on.
fn print_closing<W: Write>(output: &mut W, number: u8, report: &[u8], end: usize) -> io::Result<()>
    requires inside { end ≤ length report.now }
    requires fits { end ≤ 1312 }
    ensures { OnOk result (Appends (W.contents output.old) (W.contents output.new) (closing_lines number (take end report.now) (drop end report.now))) }
{
    console::print_call(output, b"close", number, &report[..end])?;
    if !console::is_filled(report, end) {
        output.write_all(b"buffer changed\n")?;
    }
    Ok(())
}

impl Trace {
    /// The empty ledger, and no plan.
    fn new() -> Self {
        let Step { ledger, .. } = Ledger::open(b"");
        Trace {
            ledger,
            plan: ArrayVec::new(),
        }
    }

    // `open` and `year` differ in the call that they make and in their word: one function of both would be handed the two, and be no plainer.

    fn open<W: Write>(&mut self, output: &mut W, piece: &[u8]) -> io::Result<()>
        ensures plan { self.new.plan ≡ self.old.plan }
        ensures ledger { self.new.ledger ≡ (open_call piece.now).ledger }
    {
        let Step { ledger, answer } = Ledger::open(piece);
        self.ledger = ledger;
        console::print_call(output, b"open", reckoner::number(answer), b"")?;
        Ok(())
    }

    fn year<W: Write>(&mut self, output: &mut W, piece: &[u8]) -> io::Result<()>
        ensures plan { self.new.plan ≡ self.old.plan }
        ensures ledger { self.new.ledger ≡ (year_call self.old.ledger piece.now self.old.plan.items).ledger }
    {
        let Step { ledger, answer } = self.ledger.year(piece, &self.plan);
        self.ledger = ledger;
        console::print_call(output, b"year", reckoner::number(answer), b"")?;
        Ok(())
    }

    /// Keeps the bytes of a piece as the plan.
    fn keep_plan(&mut self, piece: &[u8])
        requires { length piece.now ≤ 65536 }
        ensures { self.new.plan.items ≡ piece.now }
    {
        self.plan.clear();
        let _fits = self.plan.try_extend_from_slice(piece);
    }

    #[tactic(auto, using(crate::proofs::Rulesets::reports))]
    fn close<W: Write>(&mut self, output: &mut W, report: &mut [u8]) -> io::Result<()>
        ensures plan { self.new.plan ≡ self.old.plan }
        ensures ledger { self.new.ledger ≡ self.old.ledger }
        ensures printed { OnOk result (Appends (W.contents output.old) (W.contents output.new) (closed_lines self.old.ledger report.old)) }
    {
        let Step { ledger, answer } = self.ledger.close(report);
        self.ledger = ledger;
        match answer {
            Err(refusal) => print_closing(output, refusal.number(), report, 0),
            Ok(()) => {
                // `as`: at most 20 years to a place.
                let end = (64 * ledger.years() + 32) as usize;
                print_closing(output, 0, report, end)
            }
        }
    }

    /// Makes a call.
    fn make<W: Write>(&mut self, output: &mut W, call: Call) -> io::Result<()>
        requires { Fits call }
        ensures { self.new.plan.items ≡ plan_after call.entry self.old.plan.items }
    {
        match call {
            Call::Open(piece) => self.open(output, piece),
            Call::Year(piece) => self.year(output, piece),
            Call::Plan(piece) => {
                self.keep_plan(piece);
                Ok(())
            }
            Call::Close(report) => self.close(output, report),
        }
    }
}

/// The next call of the list, or `None` where the list has ended. Its bytes are read into the space that is lent; those of a closing
/// are a buffer full of the filling.
fn read_call<'a, R: Read>(
    input: &mut R,
    space: &'a mut [u8; 65_536],
) -> io::Result<Option<Call<'a>>>
    ensures { IfOk result (λ read. IfSome read Fits) }
{
    // 0 where the mark is missing: it is no call's, and what follows it is read as after any other.
    let mark = console::read_byte(input)?.unwrap_or(0);
    let Some(length) = console::read_length(input)? else {
        return Ok(None);
    };
    if mark == b'C' {
        let buffer = &mut space[..length];
        buffer.fill(FILLING);
        return Ok(Some(Call::Close(buffer)));
    }
    let Some(piece) = console::read_piece(input, &mut space[..length])? else {
        return Ok(None);
    };
    match mark {
        b'O' => Ok(Some(Call::Open(piece))),
        b'Y' => Ok(Some(Call::Year(piece))),
        b'P' => Ok(Some(Call::Plan(piece))),
        _ => Ok(None),
    }
}

/// Makes the calls that the input lists.
fn run<R: Read, W: Write>(input: &mut R, output: &mut W) -> io::Result<()> {
    let mut trace = Trace::new();
    let mut space = console::filled_buffer();
    // To the end of the input: a loop needs a bound, and no input has as many calls.
    for _ in 0..u64::MAX {
        let Some(call) = read_call(input, &mut space)? else {
            break;
        };
        trace.make(output, call)?;
    }
    Ok(())
}

fn main(rt: HostRuntime) -> io::Result<()> {
    run(&mut rt.reader(), &mut io::writer(&rt))
}
