//! The opening of a dossier or of a ledger: HD, ST if it is filed, PA, DA and, under Option 2, MP.
#![tactic(auto)]

ghost use Rattle.std.specs.Prelude.{◌≡◌, ◌+◌, ◌≤◌, [], pos, IfOk, OnErr};
ghost use Rattle.dossier.specs.JudgingRecords.{head, stocks, stocks_if_any, areas, matrix, matrix_under};
ghost use Rattle.cursor.specs.Says.{says};
ghost use Rattle.projection.specs.Projection.{area_total};
ghost use Rattle.projection.specs.Ranges.{SmallArea};
ghost use Rattle.wire.specs.Bytes.{total as sum_of};
ghost use Rattle.opening.specs.Amounts.{amounts};
ghost use Rattle.dossier.specs.Records.{matrix_in_use};
ghost use Rattle.opening.specs.Opened.{filed, filed_under, settled_of, settled_opening, settled_piece};

use classes::{Matrix, Stocks};
use cursor::Reader;
use cursor::marks::{DA, HD, MP, PA, ST};
use figures::{State, Terms};
use projection::Region;
use refusals::Refusal;
use units::{AreaUnits, Grams};

// The greatest stock of a filed list, in hundredths of tC per ha.
const GREATEST_STOCK: u64 = 50_000;

// The greatest total of PA and of DA.
const GREATEST_AREA: AreaUnits = AreaUnits(1_000_000_000_000);

// What a row of MP sums to, in millionths.
const ROW_SUM: u64 = 1_000_000;

/// The fields of HD.
#[derive(Clone, Copy, Debug)]
struct Head {
    option: u64,
    first_year: u64,
    years: u64,
    ghost few: { years ≤ 20 },
    ghost over: { first_year + years ≤ 2220 },
}

/// HD. The option stays a number, as it is in `Terms`, where a refused opening has option 0.
#[tactic(auto, unfolding(dossier::specs::JudgingRecords::head, dossier::specs::Reader::followed, dossier::specs::Reader::field, dossier::specs::Reader::give))]
fn read_head(reader: &mut Reader) -> Result<Head, Refusal>
    ensures { says (λ head. record { option = head.option; first_year = head.first_year; years = head.years }) result reader.new ≡ head reader.old }
{
    reader.begin(HD, 4)?;
    let option = u64::from(reader.u8());
    let first_year = u64::from(reader.u16());
    let years = u64::from(reader.u8());
    reader.within(1, option, 2, Refusal::HeadOutOfRange)?;
    reader.within(2000, first_year, 2200, Refusal::HeadOutOfRange)?;
    reader.within(1, years, 20, Refusal::HeadOutOfRange)?;
    Ok(Head {
        option,
        first_year,
        years,
    })
}

// ST, PA with DA, and MP have a loop each: each tests something else, an entry, what is left or a row, and a loop that is handed its test would be no
// plainer. One law serves all three (proofs/Reading).

/// ST: twelve stocks, each tested as it is read; that of NF is 0.
#[tactic(auto, unfolding(dossier::specs::JudgingRecords::stocks, dossier::specs::Reader::followed))]
fn read_stocks(reader: &mut Reader) -> Result<Stocks, Refusal>
    ensures { says (λ stocks. stocks) result reader.new ≡ stocks reader.old }
{
    reader.begin(ST, 24)?;
    let mut by_class = [0; 12];
    for stock in by_class.iter_mut() {
        let filed = u64::from(reader.u16());
        if GREATEST_STOCK < filed {
            return Err(Refusal::StockOutOfRange);
        }
        *stock = filed;
    }
    reader.equal(by_class[classes::NF], 0, Refusal::StockOutOfRange)?;
    Ok(Stocks { by_class })
}

/// ST where it stands.
#[tactic(auto, unfolding(dossier::specs::JudgingRecords::stocks_if_any, dossier::specs::Reader::if_any, dossier::specs::Reader::followed, dossier::specs::Reader::give))]
fn read_stocks_if_any(reader: &mut Reader) -> Result<Option<Stocks>, Refusal>
    ensures { says filed result reader.new ≡ stocks_if_any reader.old }
{
    if reader.stands(ST) {
        Ok(Some(read_stocks(reader)?))
    } else {
        Ok(None)
    }
}

/// The areas of a region at inception, class by class, and their total, at most 10^12 area units.
#[derive(Clone, Copy, Debug)]
struct Inception {
    areas: [AreaUnits; 12],
    total: AreaUnits,
    ghost summed: { total.0 ≡ sum_of (amounts areas) },
    ghost small: { SmallArea total.0 },
    ghost fits: { SmallArea (area_total areas) },
}

/// PA or DA: twelve areas whose total is from `least` to 10^12. Each is tested against what is left before it is added, so no sum wraps.
// Inlined, for what a function hands back is cleared and copied once more (docs/PERFORMANCE.md).
#[inline(always)]
#[tactic(auto, unfolding(dossier::specs::JudgingRecords::areas, dossier::specs::Reader::followed))]
fn read_areas(reader: &mut Reader, mark: u64, least: u64) -> Result<Inception, Refusal>
    ensures { says (λ inception. amounts inception.areas) result reader.new ≡ areas mark least reader.old }
{
    reader.begin(mark, 96)?;
    let mut areas = [AreaUnits(0); 12];
    let mut total = AreaUnits(0);
    for area in areas.iter_mut() {
        let filed = AreaUnits(reader.u64());
        if GREATEST_AREA - total < filed {
            return Err(Refusal::AreaTotalWrong);
        }
        total += filed;
        *area = filed;
    }
    reader.within(least, total.0, GREATEST_AREA.0, Refusal::AreaTotalWrong)?;
    Ok(Inception { areas, total })
}

/// MP: the matrix row by row, each row tested once it is summed.
#[tactic(auto, unfolding(dossier::specs::JudgingRecords::matrix, dossier::specs::Reader::followed))]
fn read_matrix(reader: &mut Reader) -> Result<Matrix, Refusal>
    ensures { says (λ matrix. matrix) result reader.new ≡ matrix reader.old }
{
    reader.begin(MP, 576)?;
    let mut entries = [0; 144];
    for row in 0..12 {
        let mut sum = 0;
        for column in 0..12 {
            let probability = u64::from(reader.u32());
            entries[classes::place(row, column)] = probability;
            sum += probability;
        }
        if sum != ROW_SUM {
            return Err(Refusal::RowSumWrong);
        }
    }
    Ok(Matrix { entries })
}

/// The matrix in use: that of MP under Option 2, otherwise Option 1's. The option is a number, as in `Terms`.
// Inlined, as `read_areas` is.
#[inline(always)]
#[tactic(auto, unfolding(dossier::specs::JudgingRecords::matrix_under, dossier::specs::Reader::if_any, dossier::specs::Reader::followed, dossier::specs::Reader::give))]
fn read_matrix_under(reader: &mut Reader, option: u64) -> Result<Matrix, Refusal>
    ensures filed { says (filed_under option) result reader.new ≡ matrix_under option reader.old }
    ensures in_use { IfOk result (λ matrix. matrix ≡ matrix_in_use (filed_under option matrix)) }
{
    if option == 2 {
        read_matrix(reader)
    } else {
        Ok(Matrix::option_one())
    }
}

/// What an opening settles for all years, and the state that it starts.
#[derive(Clone, Copy, Debug)]
pub struct Opened {
    pub terms: Terms,
    pub state: State,
}

/// An opening: HD, ST if it is filed, PA, DA and, under Option 2, MP (docs/DOSSIER.md). The first fault counts: `BytesMissing`, `MarkNotDue`,
/// `HeadOutOfRange`, `StockOutOfRange`, `AreaTotalWrong` or `RowSumWrong`.
#[tactic(auto, unfolding(crate::specs::Opened::settled_opening, dossier::specs::Judging::opening, dossier::specs::Records::settled, dossier::specs::Records::terms_of, dossier::specs::Records::state_of, dossier::specs::Reader::followed, dossier::specs::Reader::give), using(crate::proofs::AmountLaws::units_amounts))]
pub fn read_opening(reader: &mut Reader) -> Result<Opened, Refusal>
    ensures value { says settled_of result reader.new ≡ settled_opening reader.old }
    ensures few { IfOk result (λ opened. opened.state.left ≤ 20) }
    ensures none_credited { IfOk result (λ opened. opened.state.total.0 ≡ pos 0) }
    ensures stays { OnErr result (reader.new ≡ reader.old) }
{
    let mut ahead = Reader::new(reader.rest());
    let head = read_head(&mut ahead)?;
    let stocks = read_stocks_if_any(&mut ahead)?;
    let project = read_areas(&mut ahead, PA, 1)?;
    let belt = read_areas(&mut ahead, DA, 0)?;
    let matrix = read_matrix_under(&mut ahead, head.option)?;
    let terms = Terms {
        option: head.option,
        stocks: stocks.unwrap_or_else(Stocks::built_in),
        matrix,
        start: project.total,
        beltstart: belt.total,
    };
    let state = State {
        year: head.first_year,
        left: head.years,
        project: Region::opened(project.areas),
        belt: Region::opened(belt.areas),
        total: Grams(0),
    };
    *reader = ahead;
    Ok(Opened { terms, state })
}

/// An opening piece: an opening, with its refusals, and nothing after it, else `BytesMissing` for a lone byte and `MarkNotDue` for more.
#[tactic(auto, unfolding(crate::specs::Opened::settled_opening, crate::specs::Opened::settled_piece, dossier::specs::Judging::opening_piece, dossier::specs::Reader::followed, dossier::specs::Reader::give))]
pub fn read_piece(piece: &[u8]) -> Result<Opened, Refusal>
    ensures { says settled_of result [] ≡ settled_piece piece.now }
{
    let mut reader = Reader::new(piece);
    let opened = read_opening(&mut reader)?;
    reader.end_of_piece()?;
    Ok(opened)
}
