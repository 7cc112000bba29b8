//! The instructions of the stack machine.

ghost use Rattle.std.specs.Prelude.{◌≡◌};
ghost use Rattle.flame_code.specs.InstrNames.{name_of_instr};

/// One instruction. `line` is the line of a fault, `to` a place in the code; columns, constants, inputs, message and
/// agent types and helpers go by number. It takes 20 bytes.
// ORDER INSTRUCTIONS: their names, the stack table, the step of the machine, and its proofs go by this order too.
#[derive(Clone, Copy, Debug, PartialEq, Eq)]
pub enum Instr {
    /// Pushes the number.
    Push(i32),
    /// Pushes the top again.
    Dup,
    /// Pops one value.
    Drop,
    /// Pushes the local.
    Loc(u32),
    /// Pops a value into the local.
    SetLoc(u32),
    /// Pushes the column of the memory.
    Mem(u32),
    /// Pops a value into the column of the memory.
    SetMem(u32),
    /// Line, column, length: pops an index and pushes the element of the memory's array.
    MemAt(u32, u32, u32),
    /// Line, column, length: pops a value, then an index, and stores into the memory's array.
    SetMemAt(u32, u32, u32),
    /// Pushes the constant.
    Const(u32),
    /// Pushes the iteration's number.
    Iter,
    /// Input, column: pushes a number of the input's current row.
    Field(u32, u32),
    /// Line, input, column, length: pops an index and pushes the element of the current row's array.
    FieldAt(u32, u32, u32, u32),
    /// Line: pops a value and pushes it with the other sign.
    Neg(u32),
    /// Pops a value and pushes 1 where it is 0, else 0.
    Not,
    /// Line: pops the right and then the left operand and pushes the sum.
    Add(u32),
    /// Line: likewise the difference.
    Sub(u32),
    /// Line: likewise the product.
    Mul(u32),
    /// Line: likewise the quotient.
    Div(u32),
    /// Line: likewise the remainder.
    Rem(u32),
    /// Likewise 1 where left is less, else 0.
    Lt,
    /// Likewise for greater.
    Gt,
    /// Likewise for less or equal.
    Le,
    /// Likewise for greater or equal.
    Ge,
    /// Likewise for equal.
    Eq,
    /// Likewise for not equal.
    Ne,
    /// To: goes there.
    Jump(u32),
    /// To: pops a value and goes there where it is 0.
    JumpZero(u32),
    /// To: pops a value and goes there where it is not 0.
    JumpNotZero(u32),
    /// Line: pays one unit of fuel.
    Pay(u32),
    /// Input: goes before its first row.
    Enter(u32),
    /// Line, input, to: goes to the input's next row and pays one unit, or goes to the place where there is none.
    Next(u32, u32, u32),
    /// Input: ends its loop.
    Leave(u32),
    /// Message type: pops a row of its width, the last on top, and sends it.
    Send(u32),
    /// Agent type: pops a row of its width, the last on top, and bears an agent.
    Bear(u32),
    /// Line, helper, count: pays one unit, pops so many arguments, the last on top, and pushes what the helper returns.
    Call(u32, u32, u32),
    /// Pops the value that is returned.
    Return,
}

impl Instr {
    /// The instruction's name, as a listing has it.
    pub fn name(&self) -> &'static str
        ensures { result.now ≡ name_of_instr self.now }
    {
        // ORDER INSTRUCTIONS
        match self {
            Instr::Push(_) => "Push",
            Instr::Dup => "Dup",
            Instr::Drop => "Drop",
            Instr::Loc(_) => "Loc",
            Instr::SetLoc(_) => "SetLoc",
            Instr::Mem(_) => "Mem",
            Instr::SetMem(_) => "SetMem",
            Instr::MemAt(_, _, _) => "MemAt",
            Instr::SetMemAt(_, _, _) => "SetMemAt",
            Instr::Const(_) => "Const",
            Instr::Iter => "Iter",
            Instr::Field(_, _) => "Field",
            Instr::FieldAt(_, _, _, _) => "FieldAt",
            Instr::Neg(_) => "Neg",
            Instr::Not => "Not",
            Instr::Add(_) => "Add",
            Instr::Sub(_) => "Sub",
            Instr::Mul(_) => "Mul",
            Instr::Div(_) => "Div",
            Instr::Rem(_) => "Rem",
            Instr::Lt => "Lt",
            Instr::Gt => "Gt",
            Instr::Le => "Le",
            Instr::Ge => "Ge",
            Instr::Eq => "Eq",
            Instr::Ne => "Ne",
            Instr::Jump(_) => "Jump",
            Instr::JumpZero(_) => "JumpZero",
            Instr::JumpNotZero(_) => "JumpNotZero",
            Instr::Pay(_) => "Pay",
            Instr::Enter(_) => "Enter",
            Instr::Next(_, _, _) => "Next",
            Instr::Leave(_) => "Leave",
            Instr::Send(_) => "Send",
            Instr::Bear(_) => "Bear",
            Instr::Call(_, _, _) => "Call",
            Instr::Return => "Return",
        }
    }
}
