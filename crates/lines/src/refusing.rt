// Why a call was refused (01, Refusals).
ghost use Rattle.std.specs.Prelude.{◌≡◌, [], ◌∷◌};
ghost use Rattle.lines.specs.Refusal.{reason_number, table_number, found_by};
ghost use Rattle.lines.specs.Checks.{check, first_found};

use std::error::Error;
use std::fmt;

// 01's refusals, with their numbers.
#[derive(Clone, Copy, Debug, PartialEq, Eq)]
pub enum Reason {
    // A text or table is empty or not of whole lines, or the evaluator's input bytes are not as many as the inputs.
    WrongLength = 1,
    // A lent buffer is shorter than needed.
    BufferTooShort = 2,
    // A line is not three numbers up to 999,999 in six columns each and byte 10, or a number to be written is above 999,999.
    LineIllWritten = 3,
    // A number of a head is outside its limits.
    HeadOutOfLimits = 4,
    // There are more or fewer lines than the heads say, beside a circuit's starting lines.
    LinesNotAsHeadSays = 5,
    // A gate's kind is neither XOR nor AND, or a closing line is not 3, reference, 0.
    UnknownKind = 6,
    // A reference is not below its gate, or a closing one is beyond its side or circuit.
    ReferenceOutOfRange = 7,
    // A hole, or a left gate but the last, is no operand of a later left gate.
    UnusedReference = 8,
    // The register limit is not 1 to 1,024.
    RegisterLimitOutOfRange = 9,
    // The most values held at once are more than the register limit.
    TooFewRegisters = 10,
    // A starting line's reference is not an input or not above that of the line before, or its level is not 1 to 255.
    WrongStart = 11,
    // The limit of ways is not 1 to 65,535.
    WayLimitOutOfRange = 12,
}

// 01's tables that a fault can lie in, with their numbers.
#[derive(Clone, Copy, Debug, PartialEq, Eq)]
pub enum Table {
    Circuit = 1,
    Rules = 2,
    Sites = 3,
}

// The reason, and the table that the fault lies in, if it lies in one.
#[derive(Clone, Copy, Debug, PartialEq, Eq)]
pub struct Refusal {
    pub reason: Reason,
    pub table: Option<Table>,
}

impl Refusal {
    // 01's number of the reason.
    pub fn number(self) -> u32
        ensures { result ≡ reason_number self.reason }
    {
        self.reason as u32
    }

    // 01's number of the table, or 0 where the fault lies in none.
    pub fn table_number(self) -> u32
        ensures { result ≡ table_number self.table }
    {
        match self.table {
            Some(table) => table as u32,
            None => 0,
        }
    }
}

// One check of a call's list: the refusal if the test says that it applies. With `?` behind each, the checks stand in the code as in their list.
pub fn refuse_if(applies: bool, reason: Reason, table: Option<Table>) -> Result<(), Refusal>
    ensures { found_by result ≡ first_found (check applies (reason_number reason) (table_number table) ∷ []) }
{
    if applies {
        return Err(Refusal { reason, table });
    }
    Ok(())
}

impl fmt::Display for Refusal {
    fn fmt<W: fmt::Write>(&self, f: &mut fmt::Formatter<W>) -> fmt::Result {
        write!(f, "refused {} {}", self.number(), self.table_number())
    }
}

impl Error for Refusal {}
