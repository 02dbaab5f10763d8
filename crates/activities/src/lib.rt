//! A year's activity records: FU, VE, NI, LI and CR, each with its emissions, up to 60 of them, two of CR at most, no two equal.
#![tactic(auto)]

mod records;

ghost use Rattle.std.specs.Prelude.{◌≡◌, ◌≤◌, [], IfOk, OnErr};
ghost use Rattle.std.specs.Int.Signed.{mag};
ghost use Rattle.classes.specs.Ranges.{greatest_activity};
ghost use Rattle.cursor.specs.Says.{says};
ghost use Rattle.activities.specs.Answers.{SaysMark, RecordsSaid, summed_activities};

use cursor::Reader;
use cursor::marks::CR;
use pairs::Keys;
use records::{is_activity, read_activity};
use refusals::Refusal;
use units::Grams;

/// How many records of CR a year has at most.
const GREATEST_RESIDUES: u64 = 2;

// The mark that stands here, and what follows it.
#[tactic(auto, using(cursor::proofs::FieldLaws::field_16))]
fn mark_here<'a>(reader: &Reader<'a>) -> Option<(u64, Reader<'a>)>
    ensures { SaysMark reader.now result }
{
    let (mark, fields) = reader.rest().split_first_chunk::<2>()?;
    Some((u64::from(u16::from_be_bytes(*mark)), Reader::new(fields)))
}

// The activity records that stand here, with the key of each: equal ones are not refused yet.
#[tactic(auto, using(crate::proofs::RunLaws::none_yet))]
fn read_records(reader: &mut Reader, keys: &mut Keys) -> Result<Grams, Refusal>
    requires { keys.old ≡ [] }
    ensures { RecordsSaid reader.old keys.new result reader.new }
{
    let mut grams = Grams(0);
    let mut residues = 0u64;
    'records: while let Some((mark, mut fields)) = mark_here(reader) {
        if keys.is_full() {
            if is_activity(mark) {
                return Err(Refusal::TooManyActivities);
            }
            break;
        }
        residues += u64::from(mark == CR);
        if residues > GREATEST_RESIDUES {
            return Err(Refusal::TooManyActivities);
        }
        let Some(read) = read_activity(mark, &mut fields) else {
            break;
        };
        let activity = read?;
        keys.add(activity.key());
        grams += activity.emissions();
        *reader = fields;
    }
    Ok(grams)
}

/// The run of activity records that stands here: the sum of their emissions. Two that are equal come before what stopped the reading.
pub fn read_run(reader: &mut Reader) -> Result<Grams, Refusal>
    ensures value { says (λ grams. grams) result reader.new ≡ summed_activities reader.old }
    ensures small { IfOk result (λ grams. mag grams.0 ≤ greatest_activity) }
    ensures stays { OnErr result (reader.new ≡ reader.old) }
{
    let mut keys = Keys::new();
    let mut ahead = Reader::new(reader.rest());
    let grams = read_records(&mut ahead, &mut keys);
    if keys.any_equal() {
        return Err(Refusal::RecordRepeated);
    }
    let grams = grams?;
    *reader = ahead;
    Ok(grams)
}
