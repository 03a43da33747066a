// The instructions of a program, four numbers each (01, Register program, 2).
ghost use Rattle.std.specs.Prelude.{◌≡◌};
ghost use Rattle.translator.specs.Instructions.{numbers_of, said_by};

use circuit::checked::Kind;

// The operation's opcode is its gate's kind.
#[derive(Clone, Copy)]
pub enum Instruction {
    Operate {
        kind: Kind,
        register: u16,
        left: u16,
        right: u16,
    },
    Emit {
        register: u16,
    },
    Load {
        register: u16,
        reference: u32,
    },
}

impl Instruction {
    pub fn numbers(self) -> [u32; 4]
        ensures { result ≡ numbers_of (said_by self) }
    {
        match self {
            Instruction::Operate {
                kind,
                register,
                left,
                right,
            } => [u32::from(kind), register as u32, left as u32, right as u32],
            Instruction::Emit { register } => [3, register as u32, 0, 0],
            Instruction::Load {
                register,
                reference,
            } => [4, register as u32, reference, 0],
        }
    }
}
