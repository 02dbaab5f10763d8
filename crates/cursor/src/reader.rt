//! A reader over the bytes of a dossier, a piece or a plan: what is left of them, and the fields that stand there.

ghost use Rattle.std.specs.Prelude.{◌≡◌, ◌≤◌, ◌<◌, ◌*◌, ◌^◌, map, length, take, drop, [], OnOk, OnErr};
ghost use Rattle.wire.specs.Bytes.{number, numbers};
ghost use Rattle.dossier.specs.Reader.{mark as mark_due, begin, is, stands as mark_stands, within, equal, nothing, end_of_piece};
ghost use Rattle.refusals.specs.Refusals.{number_of};
ghost use Rattle.cursor.specs.Says.{says, done};

use refusals::Refusal;
use std::marker::Model;

/// The bytes that are left to read. A refusal leaves a reader where it stood.
#[derive(Drop)]
pub struct Reader<'a> {
    rest: &'a [u8],
}

impl<'a> Model for Reader<'a> {
    ghost use Rattle.std.specs.Prelude.{ℕ, List};

    ghost Value = { List ℕ };

    ghost view = { λ reader. reader.rest.now };
}

impl<'a> Reader<'a> {
    /// At the start of these bytes.
    pub fn new(bytes: &'a [u8]) -> Self
        ensures { result ≡ bytes.now }
    {
        Reader { rest: bytes }
    }

    /// What is left.
    pub fn rest(&self) -> &'a [u8]
        ensures { result.now ≡ self.now }
    {
        self.rest
    }

    // One for each width, as std has `from_be_bytes`: the type of the result tells its range.

    /// The next byte as a number.
    #[tactic(auto, using(crate::proofs::FieldLaws::field_8))]
    pub fn u8(&mut self) -> u8
        requires { 1 ≤ length self.old }
        ensures value { result ≡ number (take 1 self.old) }
        ensures rest { self.new ≡ drop 1 self.old }
    {
        let (field, rest) = self.rest.split_at(1);
        self.rest = rest;
        field[0]
    }

    /// The next two bytes as a number, the most significant first.
    #[tactic(auto, using(crate::proofs::FieldLaws::field_16))]
    pub fn u16(&mut self) -> u16
        requires { 2 ≤ length self.old }
        ensures value { result ≡ number (take 2 self.old) }
        ensures rest { self.new ≡ drop 2 self.old }
    {
        let (field, rest) = self.rest.split_first_chunk::<2>().unwrap();
        self.rest = rest;
        u16::from_be_bytes(*field)
    }

    /// The next four bytes as a number, the most significant first.
    #[tactic(auto, using(crate::proofs::FieldLaws::field_32))]
    pub fn u32(&mut self) -> u32
        requires { 4 ≤ length self.old }
        ensures value { result ≡ number (take 4 self.old) }
        ensures rest { self.new ≡ drop 4 self.old }
    {
        let (field, rest) = self.rest.split_first_chunk::<4>().unwrap();
        self.rest = rest;
        u32::from_be_bytes(*field)
    }

    /// The next eight bytes as a number, the most significant first.
    #[tactic(auto, using(crate::proofs::FieldLaws::field_64))]
    pub fn u64(&mut self) -> u64
        requires { 8 ≤ length self.old }
        ensures value { result ≡ number (take 8 self.old) }
        ensures rest { self.new ≡ drop 8 self.old }
    {
        let (field, rest) = self.rest.split_first_chunk::<8>().unwrap();
        self.rest = rest;
        u64::from_be_bytes(*field)
    }

    /// The next fields of one width, so many of them: their bytes.
    #[tactic(auto, using(crate::proofs::FieldLaws::fields_of))]
    pub fn fields<const COUNT: usize, const WIDTH: usize>(&mut self) -> &'a [[u8; WIDTH]; COUNT]
        requires width { 0 < WIDTH }
        requires room { COUNT * WIDTH ≤ length self.old }
        ensures value { map number result.now ≡ numbers COUNT WIDTH self.old }
        ensures rest { self.new ≡ drop (COUNT * WIDTH) self.old }
    {
        let (bytes, rest) = self.rest.split_at(COUNT * WIDTH);
        self.rest = rest;
        let (fields, _) = bytes.as_chunks::<WIDTH>();
        fields.first_chunk::<COUNT>().unwrap()
    }

    /// Whether a mark stands here.
    #[tactic(auto, using(crate::proofs::Rulesets::marks, crate::proofs::FieldLaws::field_16))]
    pub fn stands(&self, mark: u64) -> bool
        ensures { result ≡ mark_stands (is mark) self.now }
    {
        match self.rest.first_chunk::<2>() {
            Some(found) => u64::from(u16::from_be_bytes(*found)) == mark,
            None => false,
        }
    }

    /// Past the mark of a record that has so many bytes of fields, where it stands here with all of them: otherwise `BytesMissing` or
    /// `MarkNotDue`.
    #[tactic(auto, unfolding(dossier::specs::Reader::begin, dossier::specs::Reader::followed, dossier::specs::Reader::present))]
    pub fn begin(&mut self, mark: u64, size: usize) -> Result<(), Refusal>
        ensures value { says done result self.new ≡ begin mark size self.old }
        ensures room { OnOk result (size ≤ length self.new) }
        ensures stays { OnErr result (self.new ≡ self.old) }
    {
        let mut ahead = Reader::new(self.rest);
        ahead.mark(mark)?;
        if ahead.rest.len() < size {
            return Err(Refusal::BytesMissing);
        }
        *self = ahead;
        Ok(())
    }

    /// Past a mark that is due here: otherwise `BytesMissing` or `MarkNotDue`.
    #[tactic(auto, using(crate::proofs::FieldLaws::field_16), unfolding(dossier::specs::Reader::mark))]
    pub fn mark(&mut self, mark: u64) -> Result<(), Refusal>
        ensures value { says done result self.new ≡ mark_due mark self.old }
        ensures stays { OnErr result (self.new ≡ self.old) }
    {
        let Some((found, rest)) = self.rest.split_first_chunk::<2>() else {
            return Err(Refusal::BytesMissing);
        };
        if u64::from(u16::from_be_bytes(*found)) != mark {
            return Err(Refusal::MarkNotDue);
        }
        self.rest = rest;
        Ok(())
    }

    /// That a number which was read is in its range, both ends included: otherwise the cause.
    #[tactic(auto, unfolding(dossier::specs::Reader::within, dossier::specs::Reader::outside))]
    pub fn within(&self, low: u64, number: u64, high: u64, cause: Refusal) -> Result<(), Refusal>
        ensures value { says done result self.now ≡ within (number_of cause) low number high self.now }
        ensures least { OnOk result (low ≤ number) }
        ensures most { OnOk result (number ≤ high) }
    {
        if number < low || high < number {
            return Err(cause);
        }
        Ok(())
    }

    /// That a number which was read is the one that is due: otherwise the cause.
    #[tactic(auto, unfolding(dossier::specs::Reader::equal))]
    pub fn equal(&self, number: u64, due: u64, cause: Refusal) -> Result<(), Refusal>
        ensures value { says done result self.now ≡ equal (number_of cause) number due self.now }
        ensures same { OnOk result (number ≡ due) }
    {
        if number != due {
            return Err(cause);
        }
        Ok(())
    }

    /// That no byte is left: otherwise `MarkNotDue`.
    #[tactic(auto, unfolding(dossier::specs::Reader::nothing))]
    pub fn nothing(&self) -> Result<(), Refusal>
        ensures value { says done result self.now ≡ nothing self.now }
        ensures over { OnOk result (self.now ≡ []) }
    {
        if !self.rest.is_empty() {
            return Err(Refusal::MarkNotDue);
        }
        Ok(())
    }

    /// That the bytes end here, as a piece must: a lone byte is `BytesMissing`, any more `MarkNotDue`.
    #[tactic(auto, using(crate::proofs::Rulesets::ends))]
    pub fn end_of_piece(&self) -> Result<(), Refusal>
        ensures { says done result self.now ≡ end_of_piece self.now }
    {
        match self.rest.len() {
            0 => Ok(()),
            1 => Err(Refusal::BytesMissing),
            _ => Err(Refusal::MarkNotDue),
        }
    }
}
