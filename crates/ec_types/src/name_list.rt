//! The names that a part of a program declares.
ghost use Rattle.std.specs.Prelude.{◌≡◌, ◌++◌, [], ◌∷◌, map, IfOk, OnOk};
ghost use Rattle.ec_calls.specs.Effects.{all_of, doing, statement_doing};

use crate::items::Struct;
use ec_syntax::{Body, Decl, Field, Func, Name, Stmt, StmtKind};
use std::alloc::{AllocError, Global};
use std::marker::Model;

/// Names in the order in which they are declared. Contracts see their list.
#[derive(Drop)]
pub(crate) struct NameList<'a> {
    all: Vec<&'a Name>,
}

impl<'a> Model for NameList<'a> {
    ghost use Rattle.std.specs.Prelude.{List, map};
    ghost use Rattle.ec_syntax.specs.declared.name.Name.{Name};

    ghost Value = { List Name };

    ghost view = { λ t. map (λ n. n.now) t.all.items };
}

impl<'a> NameList<'a> {
    fn new(alloc: Global) -> NameList<'a>
        ensures { result ≡ [] }
    {
        NameList {
            all: Vec::new(alloc),
        }
    }

    pub(crate) fn as_slice(&self) -> &[&'a Name]
        ensures { map (λ n. n.now) result.now ≡ self.now }
    {
        self.all.as_slice()
    }

    fn push(&mut self, n: &'a Name) -> Result<(), AllocError>
        ensures { OnOk result (self.new ≡ self.old ++ n.now ∷ []) }
    {
        self.all.push(n)?;
        Ok(())
    }

    /// The names of functions.
    pub(crate) fn of_functions(alloc: Global, all: &[&'a Func]) -> Result<NameList<'a>, AllocError>
        ensures { IfOk result (λ l. l ≡ map (λ f. f.name) (map (λ f. f.now) all.now)) }
    {
        let mut names = NameList::new(alloc);
        for f in all {
            names.push(&f.name)?;
        }
        Ok(names)
    }

    /// The names of structs.
    pub(crate) fn of_structs(alloc: Global, all: &[Struct<'a>]) -> Result<NameList<'a>, AllocError>
        ensures { IfOk result (λ l. l ≡ map (λ s. s.name) all.now) }
    {
        let mut names = NameList::new(alloc);
        for s in all {
            names.push(&s.def().name)?;
        }
        Ok(names)
    }

    /// The names of fields.
    pub(crate) fn of_fields(alloc: Global, all: &'a [Field]) -> Result<NameList<'a>, AllocError>
        ensures { IfOk result (λ l. l ≡ map (λ f. f.name) all.now) }
    {
        let mut names = NameList::new(alloc);
        for f in all {
            names.push(&f.name)?;
        }
        Ok(names)
    }

    /// The names of the parameters and variables of a function.
    pub(crate) fn of_variables(alloc: Global, f: &'a Func) -> Result<NameList<'a>, AllocError>
        ensures { IfOk result (λ l. l ≡ map (λ d. d.name) f.now.params ++ (doing f.now.body).variables) }
    {
        let mut names = NameList::new(alloc);
        names.declarations(f.params.as_slice())?;
        names.body(&f.body)?;
        Ok(names)
    }

    fn declarations(&mut self, all: &'a [Decl]) -> Result<(), AllocError>
        ensures { OnOk result (self.new ≡ self.old ++ map (λ d. d.name) all.now) }
    {
        for d in all {
            self.push(&d.name)?;
        }
        Ok(())
    }

    #[cycle(statement)]
    fn body(&mut self, b: &'a Body) -> Result<(), AllocError>
        ensures { OnOk result (self.new ≡ self.old ++ (doing b.now).variables) }
    {
        self.declarations(b.decls.as_slice())?;
        self.statements(b.stmts.as_slice())
    }

    #[cycle(statement)]
    fn statements(&mut self, all: &'a [Stmt]) -> Result<(), AllocError>
        ensures { OnOk result (self.new ≡ self.old ++ (all_of (map statement_doing all.now)).variables) }
    {
        for s in all {
            self.statement(s)?;
        }
        Ok(())
    }

    #[cycle(statement)]
    fn statement(&mut self, s: &'a Stmt) -> Result<(), AllocError>
        ensures { OnOk result (self.new ≡ self.old ++ (statement_doing s.now).variables) }
    {
        match &s.kind {
            StmtKind::Empty
            | StmtKind::Set(_)
            | StmtKind::Eval(_)
            | StmtKind::WriteTo(_, _)
            | StmtKind::AddTo(_, _)
            | StmtKind::Print(_, _)
            | StmtKind::Return(_) => Ok(()),
            StmtKind::Body(b) => self.body(b),
            StmtKind::Par(all) => self.statements(all.as_slice()),
            StmtKind::If(_, then, None) => self.statement(then.get()),
            StmtKind::If(_, then, Some(otherwise)) => {
                self.statement(then.get())?;
                self.statement(otherwise.get())
            }
            StmtKind::While(_, inside) => self.statement(inside.get()),
            StmtKind::For(_, _, _, inside) => self.statement(inside.get()),
            StmtKind::Forall(_, _, _, inside) => self.statement(inside.get()),
        }
    }
}
