//! Simple forms of typed programs.
ghost use Rattle.std.specs.Prelude.{◌≡◌};
ghost use Rattle.ec_simple.specs.Formed.{IsFormed};

use crate::form::Form;
use std::marker::Model;

/// The simple form of a typed program; `lower` alone makes one. Its numbers name what there is, ints and pointers stand where
/// they are asked for, calls fit the functions that they call, and there is a written `main` with one result. Contracts see the
/// form.
#[derive(Drop)]
pub struct Simple {
    form: Form,
}

impl Model for Simple {
    ghost use Rattle.ec_simple.specs.declared.form.Form.{Form};
    ghost use Rattle.ec_simple.specs.contracts.form.Form as contract;
    ghost use Rattle.ec_simple.specs.Formed.{IsFormed};
    ghost use Rattle.std.specs.Coded.{codes};

    ghost Value = { Form };

    ghost coded = { Prim.hlevel (codes, contract.the_row.coded) };

    ghost view = { λ s. s.form };

    ghost invariant = { λ s. IsFormed s.form };
}

impl Simple {
    pub(crate) fn new(form: Form) -> Simple
        requires { IsFormed form }
        ensures { result ≡ form }
    {
        Simple { form }
    }

    /// The shapes of its blocks and its functions.
    pub fn form(&self) -> &Form
        ensures { result.now ≡ self.now }
    {
        &self.form
    }
}
