//! Reckons the dossiers of a list on standard input and prints a line for each: what the stored vectors are tried with.
//!
//! A vector is a label of up to 100 bytes, a dossier and a plan of up to 65,536 each, each of the three after its big-endian
//! 32-bit length; the period ends, up to 64 big-endian 16-bit years after such a number of them; and such a length of a buffer,
//! up to 1,472. The list of vectors ends where one is cut or longer. A line is the label and the number; of an accepted dossier
//! every whole 64-bit number of the buffer follows, those beyond the report too.
#![tactic(auto)]

ghost use Rattle.std.specs.Prelude.{◌≤◌, length, IfOk, IfSome};

use console::FILLING;
use std::io;
use std::io::{Read, Write};

/// What the parts of a vector are read into.
#[derive(Drop)]
struct Space {
    label: [u8; 100],
    dossier: [u8; 65_536],
    plan: [u8; 65_536],
    ends: [u16; 64],
}

/// A vector of the list: its label, dossier, plan and period ends, and how many bytes a buffer is lent.
#[derive(Clone, Copy)]
struct Vector<'a> {
    label: &'a [u8],
    dossier: &'a [u8],
    plan: &'a [u8],
    ends: &'a [u16],
    room: usize,
    ghost short: { length label.now ≤ 100 },
    ghost fits: { room ≤ 1472 },
}

impl Vector<'_> {
    /// Prints the line of the vector, and another one where a refusal changed the buffer.
    fn try_on<W: Write>(&self, output: &mut W) -> io::Result<()> {
        let mut report = [FILLING; 1472];
        let answer = reckoner::reckon(self.dossier, self.plan, self.ends, &mut report[..self.room]);
        match answer {
            Ok(()) => {
                console::print_call(output, self.label, 0, &report[..self.room])?;
            }
            Err(refusal) => {
                console::print_call(output, self.label, refusal.number(), b"")?;
                if !console::is_filled(&report, 0) {
                    output.write_all(b"a refusal that changed the buffer\n")?;
                }
            }
        }
        Ok(())
    }
}

/// The next length of the input, or `None` where it is cut or above the most.
fn read_length<R: Read>(input: &mut R, most: usize) -> io::Result<Option<usize>>
    ensures { IfOk result (λ read. IfSome read (λ n. n ≤ most)) }
{
    Ok(console::read_length(input)?.filter(|length| *length <= most))
}

/// The next bytes of the input, after their length, at the front of a space, or `None` where they are cut or the space is shorter.
fn read_part<'a, R: Read>(input: &mut R, space: &'a mut [u8]) -> io::Result<Option<&'a [u8]>>
    ensures { IfOk result (λ read. IfSome read (λ part. length part.now ≤ length space.old)) }
{
    match read_length(input, space.len())? {
        Some(length) => console::read_piece(input, &mut space[..length]),
        None => Ok(None),
    }
}

/// The next period ends of the input, after their number, or `None` where they are cut or more than 64.
fn read_ends<'a, R: Read>(input: &mut R, ends: &'a mut [u16; 64]) -> io::Result<Option<&'a [u16]>>
    ensures { IfOk result (λ read. IfSome read (λ ends. length ends.now ≤ 64)) }
{
    let Some(count) = read_length(input, ends.len())? else {
        return Ok(None);
    };
    let mut space = [0u8; 128];
    let Some(years) = console::read_piece(input, &mut space[..2 * count])? else {
        return Ok(None);
    };
    for (end, year) in ends.iter_mut().zip(years.as_chunks::<2>().0) {
        *end = u16::from_be_bytes(*year);
    }
    Ok(Some(&ends[..count]))
}

/// The next vector of the list, or `None` where the list has ended.
fn read_vector<'a, R: Read>(input: &mut R, space: &'a mut Space) -> io::Result<Option<Vector<'a>>> {
    let Space {
        label,
        dossier,
        plan,
        ends,
    } = space;
    let Some(label) = read_part(input, label)? else {
        return Ok(None);
    };
    // All of these are read before any is looked at.
    let dossier = read_part(input, dossier)?;
    let plan = read_part(input, plan)?;
    let ends = read_ends(input, ends)?;
    let room = read_length(input, 1472)?;
    let (Some(dossier), Some(plan), Some(ends), Some(room)) = (dossier, plan, ends, room) else {
        return Ok(None);
    };
    Ok(Some(Vector {
        label,
        dossier,
        plan,
        ends,
        room,
    }))
}

/// Tries the vectors of the input.
fn run<R: Read, W: Write>(input: &mut R, output: &mut W) -> io::Result<()> {
    let mut space = Space {
        label: [0; 100],
        dossier: [0; 65_536],
        plan: [0; 65_536],
        ends: [0; 64],
    };
    // To the end of the input: a loop needs a bound, and no input has as many vectors.
    for _ in 0..u64::MAX {
        let Some(vector) = read_vector(input, &mut space)? else {
            break;
        };
        vector.try_on(output)?;
    }
    Ok(())
}

fn main(rt: HostRuntime) -> io::Result<()> {
    run(&mut rt.reader(), &mut io::writer(&rt))
}
