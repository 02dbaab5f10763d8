//! The twelve land use classes: their constant tables, the matrix and the emission factors from class to class, and the calendar.
#![tactic(auto)]

ghost use Rattle.std.specs.Prelude.{◌≡◌, ◌+◌, ◌*◌, ◌<◌, ◌≤◌, replicate, get_or};
ghost use Rattle.classes.specs.Classes.{carbon_stocks, emission_factor, greatest_stock};
ghost use Rattle.classes.specs.Matrix.{entry, table_of, million, option_one, option_one_matrix};
ghost use Rattle.classes.specs.Tables.{IsTableBy, TakesClasses};
ghost use Rattle.classes.specs.Calendar.{days_in_year};

use std::marker::Model;

// A class is its place among the twelve, from 0, and not an enum: the tables are arrays, which are filled and read in loops over the places, so that an
// enum would be made of a place and turned back at each entry.

/// Tree plantation, pine plantation and non-forest: their places among the twelve classes.
pub const TP: usize = 9;

pub const PP: usize = 10;

pub const NF: usize = 11;

/// Built-in carbon stock by class, in hundredths of tC per ha (the methodology's table 1, total biomass).
const CARBON_STOCKS: [u64; 12] = [
    9130, // E
    13511, // SE
    5654, // P
    4821, // D
    0, // B
    8415, // M
    9240, // MR
    3986, // FF
    4265, // FR
    5654, // TP
    5654, // PP
    0, // NF
];

/// Annual probability of deforestation by class, in millionths (the methodology's table 4).
const DEFORESTATION_PROBABILITIES: [u64; 12] = [
    24900, // E
    30900, // SE
    0, // P
    34500, // D
    14100, // B
    10000, // M
    41700, // MR
    50600, // FF
    97200, // FR
    116900, // TP
    0, // PP
    0, // NF
];

/// Carbon stocks by class, in hundredths of tC per ha; each is at most 50,000.
#[derive(Clone, Copy, Debug)]
pub struct Stocks {
    pub by_class: [u64; 12],
}

impl Model for Stocks {
    ghost use Rattle.std.specs.Prelude.{ℕ, List};
    ghost use Rattle.classes.specs.Ranges.{IsStocks};

    ghost Value = { List ℕ };

    ghost view = { λ stocks. stocks.by_class };

    ghost inverse = { λ by_class. record { by_class = by_class } };

    ghost invariant = { λ stocks. IsStocks stocks.by_class };
}

// `Matrix` and `Factors` are tables of the same shape of which other things are true: each has a Model of its own.

/// Annual probabilities of conversion from class to class, in millionths, row by row; no row sums to more than 1,000,000.
#[derive(Clone, Copy, Debug)]
pub struct Matrix {
    pub entries: [u64; 144],
}

impl Model for Matrix {
    ghost use Rattle.std.specs.Prelude.{ℕ, List};
    ghost use Rattle.classes.specs.Ranges.{IsMatrix};

    ghost Value = { List ℕ };

    ghost view = { λ matrix. matrix.entries };

    ghost inverse = { λ entries. record { entries = entries } };

    ghost invariant = { λ matrix. IsMatrix matrix.entries };
}

/// Emission factors from class to class, in hundredths of tC per ha, row by row; each is at most 50,000.
// Laid out as C lays out its one table, by which a host lends it.
#[repr(C)]
#[derive(Clone, Copy, Debug)]
pub struct Factors {
    pub entries: [u64; 144],
}

impl Model for Factors {
    ghost use Rattle.std.specs.Prelude.{ℕ, List};
    ghost use Rattle.classes.specs.Ranges.{AreFactors};

    ghost Value = { List ℕ };

    ghost view = { λ factors. factors.entries };

    ghost inverse = { λ entries. record { entries = entries } };

    ghost invariant = { λ factors. AreFactors factors.entries };
}

/// The place of a pair of classes in a table: row by row.
pub fn place(from: usize, to: usize) -> usize
    requires from_class { from < 12 }
    requires to_class { to < 12 }
    ensures { result ≡ 12 * from + to }
{
    12 * from + to
}

/// Fills a table with the number of each pair of classes, row by row.
pub fn fill_table<F: Fn(usize, usize) -> u64>(table: &mut [u64; 144], entry: F)
    requires { TakesClasses (F.pre entry) }
    ensures { IsTableBy (F.post entry) table.new }
{
    for from in 0..12 {
        for to in 0..12 {
            table[place(from, to)] = entry(from, to);
        }
    }
}

/// The built-in stock of a class, in hundredths of tC per ha.
#[tactic(auto, unfolding(crate::specs::Classes::carbon_stocks))]
fn carbon_stock(class: usize) -> u64
    requires { class < 12 }
    ensures { result ≡ get_or carbon_stocks class 0 }
{
    CARBON_STOCKS[class]
}

/// The emission factor from one class to another, in hundredths of tC per ha.
#[tactic(auto, unfolding(crate::specs::Classes::emission_factor))]
fn emission_factor(stocks: &[u64; 12], from: usize, to: usize) -> u64
    requires from_class { from < 12 }
    requires to_class { to < 12 }
    ensures { result ≡ emission_factor stocks.now from to }
{
    if to == TP || to == PP {
        0
    } else {
        stocks[from].saturating_sub(stocks[to])
    }
}

/// Fills a table with the emission factors by these stocks.
pub fn fill_factors(factors: &mut [u64; 144], stocks: &[u64; 12])
    ensures { factors.new ≡ table_of (emission_factor stocks.now) }
{
    fill_table(factors, |from, to| emission_factor(stocks, from, to));
}

/// Option 1's annual probability of conversion from one class to another, in millionths.
#[tactic(auto, using(crate::proofs::MatrixLaws::deforestation_le), unfolding(crate::specs::Matrix::option_one, crate::specs::Classes::deforestation_probabilities))]
fn option_one(from: usize, to: usize) -> u64
    requires from_class { from < 12 }
    ensures { result ≡ option_one from to }
{
    if to == from {
        1_000_000 - DEFORESTATION_PROBABILITIES[from]
    } else if to == NF {
        DEFORESTATION_PROBABILITIES[from]
    } else {
        0
    }
}

impl Stocks {
    /// The built-in stocks.
    pub fn built_in() -> Stocks
        ensures { result ≡ carbon_stocks }
    {
        let mut by_class = [0; 12];
        for class in 0..12 {
            by_class[class] = carbon_stock(class);
        }
        Stocks { by_class }
    }

    /// No stock in any class.
    pub fn none() -> Stocks
        ensures { result ≡ replicate 12 0 }
    {
        Stocks { by_class: [0; 12] }
    }
}

impl Matrix {
    /// Option 1's matrix.
    pub fn option_one() -> Matrix
        ensures { result ≡ option_one_matrix }
    {
        let mut entries = [0; 144];
        fill_table(&mut entries, |from, to| option_one(from, to));
        Matrix { entries }
    }

    /// No conversion at all, not even of a class into itself.
    #[tactic(auto, using(crate::proofs::MatrixLaws::zeros_are_matrix))]
    pub fn none() -> Matrix
        ensures { result ≡ replicate 144 0 }
    {
        Matrix { entries: [0; 144] }
    }
}

impl Factors {
    /// No factor above 0.
    #[tactic(auto, using(crate::proofs::FactorLaws::zeros_are_factors))]
    pub fn none() -> Factors
        ensures { result ≡ replicate 144 0 }
    {
        Factors { entries: [0; 144] }
    }
}

/// The days of a Gregorian year.
#[tactic(auto, unfolding(crate::specs::Calendar::days_in_year))]
pub fn days_in_year(year: u64) -> u64
    ensures value { result ≡ days_in_year year }
    ensures least { 365 ≤ result }
    ensures most { result ≤ 366 }
{
    if year % 400 == 0 || (year % 4 == 0 && year % 100 != 0) {
        366
    } else {
        365
    }
}
