// The refusals of the rules, one variant each, and how they are told apart in numbers.
ghost use Rattle.std.specs.Prelude.{◌≡◌, get_or};
ghost use Rattle.units.specs.Refusals.{number_of, values_of};

// In the order of the rules' numbers. What stands in a variant is what the rules print beside its number.
#[derive(Clone, Copy, Debug, PartialEq, Eq)]
pub enum Refusal {
    // 1: a size or the temperature is outside its range, or a slice has the wrong length.
    Size,
    // 2: a glue number is not below the glue count; the first place.
    Glue(usize),
    // 3: a ΔG, a ΔS or a log concentration that is none; the first place, of keys the key.
    Energy(usize),
    // 4: a seed is off the grid, or its strand is not below the strand count; the seed.
    Seed(usize),
    // 5: a layout, sets or constraint offsets have the wrong shape, or a bay is off the grid.
    Shape,
    // 6, of a layout: a strand is not below the strand count; the first bay.
    Strand(usize),
    // 6, of a name that is asked: the tile is not below the strand count.
    Tile,
    // 7: a bay has no legal strand; the first one in scan order.
    NoLegalStrand(usize),
    // 8: the ledger would need too many rows.
    TooManyRows,
    // 9: what is lent is shorter than the need; the need.
    NoRoom(usize),
    // 10: a sum is a NaN or minus infinity.
    BadSum,
    // 11: a byte is no letter; the sequence and the place.
    Letter(usize, usize),
    // 12: one sequence has under 2 letters.
    TooFewLetters,
    // 13: a sequence has too many letters, or two differ in length.
    SequenceLength,
    // 14: a closed loop's length has no value; the first such length.
    LoopLength(usize),
    // 15: a name brings one base too many; the entry.
    TooManyBases(usize),
    // 16: a scaffold name ends in two or more stars; the first bay.
    Starred(usize),
    // 17: names, keys or numerals cannot be read.
    Unreadable,
    // 18: a seed's name is shown by no strand; the seed.
    UnknownSeed(usize),
    // 19: a field of a sheet is bad, missing or surplus; the line and the field.
    Field(usize, usize),
}

impl Refusal {
    // The rules' number.
    pub fn number(self) -> u32
        ensures { result ≡ number_of self }
    {
        match self {
            Refusal::Size => 1,
            Refusal::Glue(_) => 2,
            Refusal::Energy(_) => 3,
            Refusal::Seed(_) => 4,
            Refusal::Shape => 5,
            Refusal::Strand(_) | Refusal::Tile => 6,
            Refusal::NoLegalStrand(_) => 7,
            Refusal::TooManyRows => 8,
            Refusal::NoRoom(_) => 9,
            Refusal::BadSum => 10,
            Refusal::Letter(_, _) => 11,
            Refusal::TooFewLetters => 12,
            Refusal::SequenceLength => 13,
            Refusal::LoopLength(_) => 14,
            Refusal::TooManyBases(_) => 15,
            Refusal::Starred(_) => 16,
            Refusal::Unreadable => 17,
            Refusal::UnknownSeed(_) => 18,
            Refusal::Field(_, _) => 19,
        }
    }

    // The first value that the rules print beside the number, 0 where there is none.
    pub fn first(self) -> usize
        ensures { result ≡ get_or (values_of self) 0 0 }
    {
        match self {
            Refusal::Glue(place) | Refusal::Energy(place) => place,
            Refusal::Seed(seed) | Refusal::UnknownSeed(seed) => seed,
            Refusal::Strand(bay) | Refusal::NoLegalStrand(bay) | Refusal::Starred(bay) => bay,
            Refusal::NoRoom(need) => need,
            Refusal::Letter(sequence, _) => sequence,
            Refusal::LoopLength(length) => length,
            Refusal::TooManyBases(entry) => entry,
            Refusal::Field(line, _) => line,
            _ => 0,
        }
    }

    // The second value, 0 where there is none.
    pub fn second(self) -> usize
        ensures { result ≡ get_or (values_of self) 1 0 }
    {
        match self {
            Refusal::Letter(_, place) => place,
            Refusal::Field(_, field) => field,
            _ => 0,
        }
    }
}
