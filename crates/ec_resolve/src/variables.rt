//! The variables of a function, by name.
ghost use Rattle.std.specs.Prelude.{◌≡◌, ◌++◌, [], ◌∷◌, map, option_copied, IfOk, OnOk};
ghost use Rattle.ec_calls.specs.Effects.{joined};
ghost use Rattle.ec_resolve.specs.Declares.{declared_by};
ghost use Rattle.ec_types.specs.Meaning.Resolution as resolution;
ghost use Rattle.ec_types.specs.Names as names;
ghost use Rattle.ec_types.specs.Places.{place};

use ec_base::Text;
use ec_syntax::{Body, Decl, Func, Stmt, StmtKind};
use ec_types::NameTable;
use std::alloc::{AllocError, Global};
use std::marker::Model;

/// Declarations in the order in which they stand, by name. Contracts see their list.
#[derive(Drop)]
pub(crate) struct Variables<'a> {
    all: Vec<&'a Decl>,
    names: NameTable<'a>,
}

impl<'a> Model for Variables<'a> {
    ghost use Rattle.std.specs.Prelude.{◌≡◌, List, map};
    ghost use Rattle.ec_syntax.specs.declared.statement.Decl.{Decl};
    ghost use Rattle.ec_syntax.specs.contracts.statement.Decl as contract;
    ghost use Rattle.std.specs.Coded.{codes};

    ghost Value = { List Decl };

    ghost coded = { Prim.hlevel (codes, contract.the_row.coded) };

    ghost view = { λ v. map (λ d. d.now) v.all.items };

    ghost invariant = { λ v. v.names ≡ map (λ d. d.name.text) (map (λ d. d.now) v.all.items) };
}

impl<'a> Variables<'a> {
    fn new(alloc: Global) -> Variables<'a>
        ensures { result ≡ [] }
    {
        Variables {
            all: Vec::new(alloc),
            names: NameTable::new(alloc),
        }
    }

    /// The parameters and variables of a function.
    pub(crate) fn of(alloc: Global, f: &'a Func) -> Result<Variables<'a>, AllocError>
        ensures { IfOk result (λ v. v ≡ resolution.variables f.now) }
    {
        let mut variables = Variables::new(alloc);
        variables.declarations(f.params.as_slice())?;
        variables.body(&f.body)?;
        Ok(variables)
    }

    pub(crate) fn all(&self) -> &[&'a Decl]
        ensures { map (λ d. d.now) result.now ≡ self.now }
    {
        self.all.as_slice()
    }

    fn push(&mut self, d: &'a Decl) -> Result<(), AllocError>
        ensures { OnOk result (self.new ≡ self.old ++ d.now ∷ []) }
    {
        self.all.reserve(1)?;
        self.names.push(&d.name.text)?;
        self.all.push(d)?;
        Ok(())
    }

    fn declarations(&mut self, all: &'a [Decl]) -> Result<(), AllocError>
        ensures { OnOk result (self.new ≡ self.old ++ all.now) }
    {
        for d in all {
            self.push(d)?;
        }
        Ok(())
    }

    #[cycle(statement)]
    fn body(&mut self, b: &'a Body) -> Result<(), AllocError>
        ensures { OnOk result (self.new ≡ self.old ++ resolution.declared_in b.now) }
    {
        self.declarations(b.decls.as_slice())?;
        self.statements(b.stmts.as_slice())
    }

    #[cycle(statement)]
    fn statements(&mut self, all: &'a [Stmt]) -> Result<(), AllocError>
        ensures { OnOk result (self.new ≡ self.old ++ joined (map declared_by all.now)) }
    {
        for s in all {
            self.statement(s)?;
        }
        Ok(())
    }

    #[cycle(statement)]
    fn statement(&mut self, s: &'a Stmt) -> Result<(), AllocError>
        ensures { OnOk result (self.new ≡ self.old ++ declared_by s.now) }
    {
        match &s.kind {
            StmtKind::Body(b) => self.body(b),
            StmtKind::Par(all) => self.statements(all.as_slice()),
            StmtKind::If(_, then, other) => {
                self.statement(then.get())?;
                match other {
                    None => Ok(()),
                    Some(other) => self.statement(other.get()),
                }
            }
            StmtKind::While(_, inside) => self.statement(inside.get()),
            StmtKind::For(_, _, _, inside) => self.statement(inside.get()),
            StmtKind::Forall(_, _, _, inside) => self.statement(inside.get()),
            _ => Ok(()),
        }
    }

    /// Where the first variable of this name stands.
    pub(crate) fn place(&self, name: &Text) -> Option<usize>
        ensures { result ≡ place (map (λ d. d.name.text) self.now) name.now }
    {
        self.names.place(name)
    }

    /// The first variable of this name.
    pub(crate) fn named(&self, name: &Text) -> Option<&'a Decl>
        ensures { option_copied result ≡ names.variable_named self.now name.now }
    {
        match self.names.place(name) {
            None => None,
            Some(at) => self.all.get(at).copied(),
        }
    }
}
