// How a circuit's table is laid out: its limits, the numbers that stand for kinds, where its lines begin, and what they say.
ghost use Rattle.std.specs.Prelude.{◌≡◌, true, ◌||◌, eqb, ℕ, ◌+◌, ◌*◌, ◌<◌, ◌≤◌, List, length, take, drop, get_or};
ghost use Rattle.circuit.specs.Circuit.{max_inputs, max_references, first_gate, no_gate, xor_kind, and_kind, kind_number, gate_of, said_by};
ghost use Rattle.circuit.specs.Table.{inputs, gates, outputs, refs, starts, gates_from, closings_from, line_at, start_of, decode};
ghost use Rattle.circuit.specs.KindCode.{Decodes};
ghost use Rattle.circuit.specs.WellFormed.{Sized, WellFormed};

use lines::Reason;
use std::marker::Model;

pub const MAX_INPUTS: u32 = 512;

pub const MAX_GATES: u32 = 2048;

pub const MAX_OUTPUTS: u32 = 256;

// References 0 and 1.
pub const CONSTANTS: u32 = 2;

pub const MAX_REFERENCES: usize = (CONSTANTS + MAX_INPUTS + MAX_GATES) as usize;

// No circuit has a reference above this one.
pub const LAST_REFERENCE: u32 = MAX_REFERENCES as u32 - 1;

// As many lines, and numbers, as a table has at most.
pub const MAX_LINES: usize = (1 + MAX_INPUTS + MAX_GATES + MAX_OUTPUTS) as usize;

pub const MAX_TABLE: usize = 3 * MAX_LINES;

// Zeroing an array for the largest circuit is seen in calls on small ones. So a call that makes arrays of its own makes them of these sizes
// where a table, or its references, fit.
pub const SMALL_TABLE: usize = 3 * 1200;

pub const SMALL_REFERENCES: usize = 768;

// What closing lines and starting lines have where a gate has its kind: numbers, as they stand in tables alone.
pub const CLOSING: u32 = 3;

pub const START: u32 = 4;

// The levels that a starting line may give.
pub const MIN_LEVEL: u32 = 1;

pub const MAX_LEVEL: u32 = 255;

// What a gate does with its operands, by 01's numbers.
#[derive(Clone, Copy, Debug, PartialEq, Eq)]
pub enum Kind {
    Xor = 1,
    And = 2,
}

impl TryFrom<u32> for Kind {
    type Error = Reason;

    ghost try_from_gives = { Decodes };

    fn try_from(number: u32) -> Result<Self, Reason> {
        match number {
            1 => Ok(Kind::Xor),
            2 => Ok(Kind::And),
            _ => Err(Reason::UnknownKind),
        }
    }
}

impl Kind {
    // The kind of a number that is one. A compare tells which, where `try_from` takes a branch that no processor foresees.
    fn of_known(number: u32) -> Kind
        requires { (eqb number xor_kind || eqb number and_kind) ≡ true }
        ensures { kind_number result ≡ number }
    {
        if number == Kind::And as u32 {
            return Kind::And;
        }
        Kind::Xor
    }
}

impl From<Kind> for u32 {
    ghost from_gives = { λ kind number. number ≡ kind_number kind };

    fn from(kind: Kind) -> u32 {
        kind as u32
    }
}

// A gate: its kind and the references of its two operands.
#[derive(Clone, Copy, Debug, PartialEq, Eq)]
pub struct Gate {
    pub kind: Kind,
    pub left: u32,
    pub right: u32,
}

// What a starting line says: an input's reference, and the level that it starts at.
#[derive(Clone, Copy, Debug, PartialEq, Eq)]
pub struct Start {
    pub input: u32,
    pub level: u32,
}

// A circuit, by its table, to which no refusal applies. Where the gate lines and the closing lines begin is found once, when the table is
// taken up. A clause sees the table's numbers alone.
#[derive(Drop)]
pub struct Circuit<'a> {
    table: &'a [u32],
    gates_at: usize,
    closings_at: usize,
}

impl<'a> Model for Circuit<'a> {
    ghost Value = { List ℕ };

    ghost view = { λ c. c.table.now };

    ghost invariant = { λ c.
        WellFormed c.table.now × ((c.gates_at ≡ gates_from c.table.now) × (c.closings_at ≡ closings_from c.table.now)) };
}

impl<'a> Circuit<'a> {
    // The circuit that a well-formed table says. A loop that reads a circuit's lines and writes takes the circuit up anew before, from its
    // table: the parts of a local stay in registers, where those behind a reference would be read again after each write.
    pub fn of(table: &'a [u32]) -> Self
        requires { WellFormed table.now }
        ensures { result ≡ table.now }
    {
        Circuit {
            table: table,
            gates_at: gates_from(table),
            closings_at: closings_from(table),
        }
    }

    // The whole table. That a circuit's table is well-formed is said by the methods that tell its size.
    pub fn table(&self) -> &'a [u32]
        ensures value { result.now ≡ self.now }
        ensures well_formed { WellFormed self.now }
    {
        &self.table[..]
    }

    pub(crate) fn inputs(&self) -> usize
        ensures { result ≡ inputs self.now }
    {
        self.table[0] as usize
    }

    pub fn gates(&self) -> usize
        ensures value { result ≡ gates self.now }
        ensures well_formed { WellFormed self.now }
    {
        self.table[1] as usize
    }

    pub fn outputs(&self) -> usize
        ensures value { result ≡ outputs self.now }
        ensures well_formed { WellFormed self.now }
    {
        self.table[2] as usize
    }

    // The reference of the first gate.
    pub fn first_gate(&self) -> u32
        ensures value { result ≡ first_gate (inputs self.now) }
        ensures well_formed { WellFormed self.now }
    {
        first_gate(self.table)
    }

    // How many references there are.
    pub fn references(&self) -> usize
        ensures value { result ≡ refs self.now }
        ensures limit { result ≤ max_references }
        ensures well_formed { WellFormed self.now }
    {
        self.first_gate() as usize + self.gates()
    }

    // How many starting lines there are.
    pub(crate) fn starts(&self) -> usize
        ensures value { result ≡ starts self.now }
        ensures well_formed { WellFormed self.now }
    {
        self.gates_at / 3 - 1
    }

    // Starting line i, counted from 0.
    pub(crate) fn start(&self, i: usize) -> Start
        requires { i < starts self.now }
        ensures value { said_by result ≡ start_of (line_at self.now (3 + 3 * i)) }
        ensures input_bound { result.input < first_gate (inputs self.now) }
    {
        let table = self.table;
        let p = 3 + 3 * i;
        Start {
            input: table[p + 1],
            level: table[p + 2],
        }
    }

    // Where the gate lines begin.
    pub fn gates_from(&self) -> usize
        ensures { result ≡ gates_from self.now }
    {
        self.front().len()
    }

    // The head and the starting lines, which stand before them.
    pub fn front(&self) -> &'a [u32]
        ensures value { result.now ≡ take (gates_from self.now) self.now }
        ensures whole { length result.now ≡ gates_from self.now }
    {
        &self.table[..self.gates_at]
    }

    // Gate i, counted from 0. Its operands are below its own reference.
    pub fn gate(&self, i: usize) -> Gate
        requires { i < gates self.now }
        ensures value { gate_of result ≡ get_or (decode self.now).gates i no_gate }
        ensures operands_bound { (result.left < first_gate (inputs self.now) + i) × (result.right < first_gate (inputs self.now) + i) }
    {
        let p = self.gates_at + 3 * i;
        Gate {
            kind: Kind::of_known(self.table[p]),
            left: self.table[p + 1],
            right: self.table[p + 2],
        }
    }

    // The reference of output i.
    pub fn output(&self, i: usize) -> usize
        requires { i < outputs self.now }
        ensures value { result ≡ get_or (decode self.now).outputs i 0 }
        ensures upper_bound { result < refs self.now }
    {
        self.table[self.closings_at + 3 * i + 1] as usize
    }
}

// The reference of the first gate.
pub fn first_gate(t: &[u32]) -> u32
    requires in_bounds { 3 ≤ length t.now }
    requires t_bound { inputs t.now ≤ max_inputs }
    ensures { result ≡ first_gate (inputs t.now) }
{
    t[0] + CONSTANTS
}

// Where the closing lines begin. They are the last of a table that has as many lines as it says.
pub fn closings_from(t: &[u32]) -> usize
    requires { Sized t.now }
    ensures { result ≡ closings_from t.now }
{
    let outputs = t[2] as usize;
    t.len() - 3 * outputs
}

// Where the gate lines begin: before the closing lines, so that the starting lines need not be walked again.
pub fn gates_from(t: &[u32]) -> usize
    requires { Sized t.now }
    ensures { result ≡ gates_from t.now }
{
    let gates = t[1] as usize;
    closings_from(t) - 3 * gates
}
