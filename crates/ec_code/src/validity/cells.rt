//! The cells that instructions name.
ghost use Rattle.std.specs.Prelude.{◌≡◌};
ghost use Rattle.std.specs.List.{list_all};
ghost use Rattle.ec_code.specs.Valid as valid;

use crate::call_place::CallPlace;
use crate::code::Function;
use crate::instr::Instr;

impl Function {
    fn has_cell(&self, a: u32) -> bool
        ensures { result ≡ valid.is_cell self.now a }
    {
        a < self.cells
    }

    fn has_two_cells(&self, a: u32, b: u32) -> bool
        ensures { result ≡ valid.two_cells self.now a b }
    {
        self.has_cell(a) && self.has_cell(b)
    }

    fn has_three_cells(&self, a: u32, b: u32, c: u32) -> bool
        ensures { result ≡ valid.three_cells self.now a b c }
    {
        self.has_cell(a) && self.has_two_cells(b, c)
    }

    fn has_four_cells(&self, a: u32, b: u32, c: u32, d: u32) -> bool
        ensures { result ≡ valid.four_cells self.now a b c d }
    {
        self.has_two_cells(a, b) && self.has_two_cells(c, d)
    }

    fn has_all_cells(&self, cells: &[u32]) -> bool
        ensures { result ≡ list_all (valid.is_cell self.now) cells.now }
    {
        cells.iter().all(|cell| self.has_cell(*cell))
    }

    fn has_cells_of_place(&self, place: CallPlace) -> bool
        ensures { result ≡ valid.place_has_cells self.now place }
    {
        match place {
            CallPlace::Here => true,
            CallPlace::Home => true,
            CallPlace::Node(a) => self.has_cell(a),
            CallPlace::Owner(a) => self.has_cell(a),
        }
    }

    /// Whether every cell that an instruction names is one of the function's.
    pub(super) fn has_cells(&self, x: &Instr) -> bool
        ensures { result ≡ valid.has_cells self.now x.now }
    {
        match x {
            Instr::Jump(_)
            | Instr::InitSync(_, _, _, _)
            | Instr::Sync(_)
            | Instr::IncrSync(_)
            | Instr::Spawn(_)
            | Instr::EndFiber => true,
            Instr::Const(a, _) | Instr::Nil(a) | Instr::Check(a, _, _) | Instr::JumpZ(a, _) => {
                self.has_cell(*a)
            }
            Instr::Copy(d, a)
            | Instr::Neg(d, a)
            | Instr::Inv(d, a)
            | Instr::Not(d, a)
            | Instr::IsNil(d, a)
            | Instr::Alloc(d, a, _, _, _)
            | Instr::AddSync(d, a, _, _) => self.has_two_cells(*d, *a),
            Instr::Add(d, a, b)
            | Instr::Sub(d, a, b)
            | Instr::Mul(d, a, b)
            | Instr::And(d, a, b)
            | Instr::Or(d, a, b)
            | Instr::Xor(d, a, b)
            | Instr::Shl(d, a, b)
            | Instr::Shr(d, a, b)
            | Instr::Eq(d, a, b)
            | Instr::Ne(d, a, b)
            | Instr::Lt(d, a, b)
            | Instr::Le(d, a, b)
            | Instr::Gt(d, a, b)
            | Instr::Ge(d, a, b)
            | Instr::Div(d, a, b, _)
            | Instr::Rem(d, a, b, _)
            | Instr::Same(d, a, b) => self.has_three_cells(*d, *a, *b),
            Instr::Load(a, b, c, _, d, _)
            | Instr::Store(a, b, _, c, d, _)
            | Instr::GetSync(a, b, _, c, d, _, _)
            | Instr::DataSync(a, b, c, _, d, _, _)
            | Instr::BlkmovSync(a, b, c, d, _, _, _, _) => self.has_four_cells(*a, *b, *c, *d),
            Instr::PrintSync(_, cells, _) => self.has_all_cells(cells.as_slice()),
            Instr::EndFunction(cells) => self.has_all_cells(cells.as_slice()),
            Instr::Invoke(_, place, results, _, args) => {
                self.has_cells_of_place(*place)
                    && self.has_all_cells(results.as_slice())
                    && self.has_all_cells(args.as_slice())
            }
        }
    }
}
