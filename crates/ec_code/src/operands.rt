//! What instructions name.
ghost use Rattle.std.specs.Prelude.{◌≡◌};
ghost use Rattle.ec_code.specs.Operands as operands;

use crate::instr::Instr;

impl Instr {
    /// The slot that it names.
    pub fn slot(&self) -> Option<u32>
        ensures { result ≡ operands.slot_named self.now }
    {
        match self {
            Instr::InitSync(slot, _, _, _)
            | Instr::Sync(slot)
            | Instr::IncrSync(slot)
            | Instr::GetSync(_, _, _, _, _, slot, _)
            | Instr::DataSync(_, _, _, _, _, slot, _)
            | Instr::BlkmovSync(_, _, _, _, _, slot, _, _)
            | Instr::AddSync(_, _, slot, _)
            | Instr::PrintSync(_, _, slot)
            | Instr::Invoke(_, _, _, slot, _) => Some(*slot),
            _ => None,
        }
    }

    /// The slot that it sets up.
    pub fn slot_set_up(&self) -> Option<u32>
        ensures { result ≡ operands.slot_set_up self.now }
    {
        match self {
            Instr::InitSync(slot, _, _, _) => Some(*slot),
            _ => None,
        }
    }

    /// The fiber that it names.
    pub fn fiber(&self) -> Option<u32>
        ensures { result ≡ operands.fiber_named self.now }
    {
        match self {
            Instr::InitSync(_, _, _, fiber) => Some(*fiber),
            Instr::Spawn(fiber) => Some(*fiber),
            _ => None,
        }
    }

    /// The place in its fiber to which it may jump.
    pub fn jump_target(&self) -> Option<u32>
        ensures { result ≡ operands.jump_target self.now }
    {
        match self {
            Instr::Jump(place) => Some(*place),
            Instr::JumpZ(_, place) => Some(*place),
            _ => None,
        }
    }

    /// Whether it ends its fiber.
    pub fn ends(&self) -> bool
        ensures { result ≡ operands.ends self.now }
    {
        match self {
            Instr::EndFunction(_) => true,
            Instr::EndFiber => true,
            _ => false,
        }
    }
}
