//! Functions, structs and programs.
use crate::name::{Name, Ty};
use crate::statement::{Body, Decl};
use ec_base::{List, Span};

/// A field of a struct, and its length where it is an array.
#[derive(Drop)]
pub struct Field {
    pub name: Name,
    pub ty: Ty,
    pub array: Option<i64>,
}

#[derive(Drop)]
pub struct StructDef {
    pub name: Name,
    pub fields: List<Field>,
}

#[derive(Drop)]
pub struct Func {
    pub name: Name,
    pub result: Ty,
    pub params: List<Decl>,
    pub body: Body,
}

#[derive(Drop)]
pub enum Item {
    Struct(StructDef),
    Func(Func),
}

/// A program: its items in order, and the place of its end.
#[derive(Drop)]
pub struct Program {
    pub items: List<Item>,
    pub end: Span,
}
