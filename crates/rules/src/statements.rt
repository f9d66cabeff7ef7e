// The one table of the thirteen statement kinds: by kind its byte and what its operands are.
ghost use Rattle.std.specs.Prelude.{◌≡◌, ◌+◌, ◌-◌, ◌≤◌, ◌<◌, IfOk, IfErr, drop, take};
ghost use Rattle.rules.specs.Table.{size_of, operand_at};
ghost use Rattle.answers.specs.declared.Fault.TheVariants.{NoStatement};
ghost use Rattle.rules.specs.Kinds.{byte_of, operands_of, operand_row};

use crate::statements::Operand::{Basis, Callee, CalleeK, CalleeM, Gate, Location, Slot, Value};
use answers::Fault;

// What an operand byte is. A call's k and m are its callee's.
#[derive(Clone, Copy, Debug, PartialEq, Eq)]
pub enum Operand {
    Slot,
    Location,
    Gate,
    Basis,
    Value,
    Callee,
    CalleeK,
    CalleeM,
    Nothing,
}

// The statement kinds, by their bytes.
#[derive(Clone, Copy, Debug, PartialEq, Eq)]
pub enum Kind {
    Init = 1,
    Magic = 2,
    Free = 3,
    Gate = 4,
    Measure = 5,
    Merge = 6,
    Ref = 7,
    Get = 8,
    Set = 9,
    If = 10,
    While = 11,
    Call = 12,
    Bool = 13,
}

// The operands of all kinds in one row: those of a kind stand side by side in it, and may be those of another too.
const OPERANDS: [Operand; 13] = [
    Slot, Location, Gate, Slot, Basis, Slot, Basis, Slot, Slot, Value, Callee, CalleeK, CalleeM,
];

// All of them, in the order of their bytes.
pub const KINDS: [Kind; 13] = [
    Kind::Init,
    Kind::Magic,
    Kind::Free,
    Kind::Gate,
    Kind::Measure,
    Kind::Merge,
    Kind::Ref,
    Kind::Get,
    Kind::Set,
    Kind::If,
    Kind::While,
    Kind::Call,
    Kind::Bool,
];

impl TryFrom<u8> for Kind {
    type Error = Fault;

    fn try_from(byte: u8) -> Result<Kind, Fault>
        ensures ok { IfOk result (λ kind. byte_of kind ≡ byte) }
        ensures err { IfErr result (λ fault. (fault ≡ NoStatement) × (0 < byte → 13 < byte)) }
    {
        match byte {
            0 | 14..=255 => Err(Fault::NoStatement),
            _ => Ok(Kind::known(byte)),
        }
    }
}

impl Kind {
    // The kind of a byte that begins a statement. A look-up in `KINDS` is slower: each copies the table first.
    pub fn known(byte: u8) -> Kind
        requires { (0 < byte) × (byte < 14) }
        ensures { byte_of result ≡ byte }
    {
        match byte {
            1 => Kind::Init,
            2 => Kind::Magic,
            3 => Kind::Free,
            4 => Kind::Gate,
            5 => Kind::Measure,
            6 => Kind::Merge,
            7 => Kind::Ref,
            8 => Kind::Get,
            9 => Kind::Set,
            10 => Kind::If,
            11 => Kind::While,
            12 => Kind::Call,
            _ => Kind::Bool,
        }
    }

    pub fn byte(self) -> u8
        ensures value { result ≡ byte_of self }
        ensures between { (0 < result) × (result < 14) }
    {
        self as u8
    }

    // What the operands of the fixed part are, in their order: a part of the one row of all of them.
    pub fn operands(self) -> &'static [Operand]
        ensures { result.now ≡ operands_of (byte_of self) }
    {
        let (from, to) = self.span();
        &OPERANDS[from..to]
    }

    // Where its operands stand in the row. Numbers, and no slices: a table of slices is data that a program must mend when it is loaded.
    fn span(self) -> (usize, usize)
        ensures part { take (result.1 - result.0) (drop result.0 operand_row) ≡ operands_of (byte_of self) }
        ensures within { (result.0 ≤ result.1) × (result.1 ≤ 13) }
    {
        match self {
            Kind::Init => (0, 2),
            Kind::Magic => (0, 2),
            Kind::Free => (0, 1),
            Kind::Gate => (2, 4),
            Kind::Measure => (3, 6),
            Kind::Merge => (3, 8),
            Kind::Ref => (7, 9),
            Kind::Get => (7, 9),
            Kind::Set => (7, 9),
            Kind::If => (0, 1),
            Kind::While => (0, 1),
            Kind::Call => (10, 13),
            Kind::Bool => (8, 10),
        }
    }

    // The fixed part of a statement: its byte and the operands before any block or list.
    pub fn size(self) -> usize
        ensures value { result ≡ size_of (byte_of self) }
        ensures between { (2 ≤ result) × (result ≤ 6) }
    {
        1 + self.operands().len()
    }

    // What operand number `i` is, from 1 on. `Nothing` and no option where there is none: so say `operand_at` and `in_range` of the rules.
    pub fn operand(self, i: usize) -> Operand
        requires { 0 < i }
        ensures { result ≡ operand_at (byte_of self) i }
    {
        let operands = self.operands();
        if i <= operands.len() {
            operands[i - 1]
        } else {
            Operand::Nothing
        }
    }
}

// What operand number `i` of a statement byte is; byte 0 begins no statement, and has none.
pub fn operand_kind(statement: u8, i: usize) -> Operand
    requires { (statement < 14) × (0 < i) × (i < 6) }
    ensures { result ≡ operand_at statement i }
{
    match Kind::try_from(statement) {
        Ok(kind) => kind.operand(i),
        Err(_) => Operand::Nothing,
    }
}
