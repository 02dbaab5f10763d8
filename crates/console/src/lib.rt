//! What the testers' programs read and print, over any reader and any writer. What an input brings is free: the contracts say what
//! holds of it.
#![tactic(auto)]

ghost use Rattle.std.specs.Prelude.{◌≤◌, ◌≡◌, [], ◌∷◌, length, drop, IfOk, IfSome, IsTrue, OnOk};
ghost use Rattle.std.specs.Int.{to_be_bytes, w32};
ghost use Rattle.std.specs.Io.KnownBytes.{Appends, Consumes};
ghost use Rattle.sheet.specs.CallLine.{call_line};
ghost use Rattle.console.specs.Filled.{filled};

use arrayvec::ArrayVec;
use std::io;
use std::io::{ErrorKind, Read, Write};

/// What a buffer is filled with before a call is lent it.
pub const FILLING: u8 = 165;

/// Fills a piece from the input; whether the input went that far. The piece keeps its length, on a failure too.
// No value stands beside the answer: the piece is the caller's, and each reader below makes its own of it, which a function over them would have to be handed.
pub fn fill<R: Read>(input: &mut R, piece: &mut [u8]) -> io::Result<bool>
    ensures length { length piece.new ≡ length piece.old }
    ensures bytes { IfOk result (λ is_whole. IsTrue is_whole → Consumes (R.remaining input.old) (R.remaining input.new) piece.new) }
{
    match input.read_exact(piece) {
        Ok(()) => Ok(true),
        Err(error) if error.kind() == ErrorKind::UnexpectedEof => Ok(false),
        Err(error) => Err(error),
    }
}

/// The next byte of the input, or `None` where it has ended.
pub fn read_byte<R: Read>(input: &mut R) -> io::Result<Option<u8>>
    ensures { IfOk result (λ read. IfSome read (λ byte. Consumes (R.remaining input.old) (R.remaining input.new) (byte ∷ []))) }
{
    let mut byte = [0u8; 1];
    if fill(input, &mut byte)? {
        Ok(Some(byte[0]))
    } else {
        Ok(None)
    }
}

// The length that a big-endian field says, unless it is above 65,536.
#[tactic(auto, using(crate::proofs::Rulesets::fields))]
fn length_of(field: [u8; 4]) -> Option<usize>
    ensures bound { IfSome result (λ n. n ≤ 65536) }
    ensures bytes { IfSome result (λ n. to_be_bytes w32 n ≡ field) }
{
    let length = u32::from_be_bytes(field);
    if length > 65_536 {
        return None;
    }
    // `as`: 32 bits fit a place, which `usize::from` does not know.
    Some(length as usize)
}

/// The next big-endian 32-bit length of the input, or `None` where the input ends before or the length is above 65,536.
pub fn read_length<R: Read>(input: &mut R) -> io::Result<Option<usize>>
    ensures bound { IfOk result (λ read. IfSome read (λ n. n ≤ 65536)) }
    ensures bytes { IfOk result (λ read. IfSome read (λ n. Consumes (R.remaining input.old) (R.remaining input.new) (to_be_bytes w32 n))) }
{
    let mut field = [0u8; 4];
    if fill(input, &mut field)? {
        Ok(length_of(field))
    } else {
        Ok(None)
    }
}

/// The next piece of the input, as long as the space that is lent for it, or `None` where the input ends before.
pub fn read_piece<'a, R: Read>(input: &mut R, space: &'a mut [u8]) -> io::Result<Option<&'a [u8]>>
    ensures length { IfOk result (λ read. IfSome read (λ piece. length piece.now ≡ length space.old)) }
    ensures bytes { IfOk result (λ read. IfSome read (λ piece. Consumes (R.remaining input.old) (R.remaining input.new) piece.now)) }
{
    if fill(input, space)? {
        Ok(Some(space))
    } else {
        Ok(None)
    }
}

/// Prints the line of a call in one piece: its word, its number and every whole figure of a part of a report; how many bytes the line has.
#[tactic(auto, unfolding(sheet::specs::CallLine::call_line))]
pub fn print_call<W: Write>(
    output: &mut W,
    word: &[u8],
    number: u8,
    figures: &[u8],
) -> io::Result<usize>
    requires word { length word.now ≤ 100 }
    requires figures { length figures.now ≤ 1472 }
    ensures count { IfOk result (λ written. written ≡ length (call_line word.now number figures.now)) }
    ensures bytes { OnOk result (Appends (W.contents output.old) (W.contents output.new) (call_line word.now number figures.now)) }
{
    let numbers = sheet::numbers_line(number, figures);
    let mut line = ArrayVec::<u8, 4196>::new();
    let _fits = line.try_extend_from_slice(word);
    let _fits = line.try_extend_from_slice(numbers.as_bytes());
    output.write_all(&line)?;
    Ok(line.len())
}

/// A buffer full of the filling.
pub fn filled_buffer() -> [u8; 65_536]
    ensures length { 65536 ≡ length result }
    ensures filled { IsTrue (filled result) }
{
    [FILLING; 65_536]
}

/// Whether a buffer is still filled from a place on.
pub fn is_filled(buffer: &[u8], from: usize) -> bool
    ensures { result ≡ filled (drop from buffer.now) }
{
    buffer.iter().skip(from).all(|byte| *byte == FILLING)
}
