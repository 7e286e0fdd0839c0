//! Types.

ghost use Rattle.std.specs.Prelude.{◌≡◌, map, IfOk};
ghost use Rattle.df_types.specs.Types.{is_number, is_ordered};
ghost use Rattle.df_types.specs.Ty as pure;
ghost use Rattle.df_types.specs.Ty.{same_type, same_types, tys_of};
ghost use Rattle.df_types.specs.TyView.{ty_of};

use std::alloc::{AllocError, Global};

/// The number of a declaration: its place among those of the program, counted from 0.
pub type DeclId = usize;

/// The type of a place or an expression.
#[derive(Drop)]
pub enum Ty {
    /// The newtype of this declaration.
    Newtype(DeclId),
    /// The whole numbers.
    Int,
    /// The whole numbers from 0 on.
    Nat,
    /// The truths.
    Bool,
    /// The 128 characters.
    Char,
    /// Objects of any kind.
    Object { nullable: bool },
    /// Objects of the class of this declaration.
    Class { nullable: bool, decl: DeclId },
    Array { nullable: bool, element: Box<Ty> },
    Seq(Box<Ty>),
    Set(Box<Ty>),
    /// The datatype of this declaration at these types.
    Datatype { decl: DeclId, arguments: Vec<Ty> },
    /// The type parameter of this number in its declaration.
    Parameter(usize),
}

impl Ty {
    /// Whether two types are one.
    #[cycle(same)]
    pub fn is_same(&self, other: &Ty) -> bool
        ensures { result ≡ same_type (ty_of self.now) (ty_of other.now) }
    {
        match self {
            Ty::Newtype(decl) => is_newtype(other, *decl),
            Ty::Int => is_int(other),
            Ty::Nat => is_nat(other),
            Ty::Bool => is_bool(other),
            Ty::Char => is_char(other),
            Ty::Object { nullable } => is_object(other, *nullable),
            Ty::Class { nullable, decl } => is_class(other, *nullable, *decl),
            Ty::Array { nullable, element } => element.is_element(other, *nullable),
            Ty::Seq(element) => element.is_sequence_of(other),
            Ty::Set(element) => element.is_set_of(other),
            Ty::Datatype { decl, arguments } => are_arguments(arguments, *decl, other),
            Ty::Parameter(number) => is_parameter(other, *number),
        }
    }

    #[cycle(same)]
    fn is_element(&self, other: &Ty, nullable: bool) -> bool
        ensures { result ≡ same_type (pure.Array nullable (ty_of self.now)) (ty_of other.now) }
    {
        match other {
            Ty::Array {
                nullable: own,
                element,
            } => nullable == *own && self.is_same(element),
            Ty::Newtype(_)
            | Ty::Int
            | Ty::Nat
            | Ty::Bool
            | Ty::Char
            | Ty::Object { .. }
            | Ty::Class { .. }
            | Ty::Seq(_)
            | Ty::Set(_)
            | Ty::Datatype { .. }
            | Ty::Parameter(_) => false,
        }
    }

    #[cycle(same)]
    fn is_sequence_of(&self, other: &Ty) -> bool
        ensures { result ≡ same_type (pure.Seq (ty_of self.now)) (ty_of other.now) }
    {
        match other {
            Ty::Seq(element) => self.is_same(element),
            Ty::Newtype(_)
            | Ty::Int
            | Ty::Nat
            | Ty::Bool
            | Ty::Char
            | Ty::Object { .. }
            | Ty::Class { .. }
            | Ty::Array { .. }
            | Ty::Set(_)
            | Ty::Datatype { .. }
            | Ty::Parameter(_) => false,
        }
    }

    #[cycle(same)]
    fn is_set_of(&self, other: &Ty) -> bool
        ensures { result ≡ same_type (pure.Set (ty_of self.now)) (ty_of other.now) }
    {
        match other {
            Ty::Set(element) => self.is_same(element),
            Ty::Newtype(_)
            | Ty::Int
            | Ty::Nat
            | Ty::Bool
            | Ty::Char
            | Ty::Object { .. }
            | Ty::Class { .. }
            | Ty::Array { .. }
            | Ty::Seq(_)
            | Ty::Datatype { .. }
            | Ty::Parameter(_) => false,
        }
    }

    /// The same type again.
    #[cycle(copy)]
    pub fn copy(&self, alloc: Global) -> Result<Ty, AllocError>
        ensures { IfOk result (λ ty. ty_of ty ≡ ty_of self.now) }
    {
        match self {
            Ty::Newtype(decl) => Ok(Ty::Newtype(*decl)),
            Ty::Int => Ok(Ty::Int),
            Ty::Nat => Ok(Ty::Nat),
            Ty::Bool => Ok(Ty::Bool),
            Ty::Char => Ok(Ty::Char),
            Ty::Object { nullable } => Ok(Ty::Object {
                nullable: *nullable,
            }),
            Ty::Class { nullable, decl } => Ok(Ty::Class {
                nullable: *nullable,
                decl: *decl,
            }),
            Ty::Array { nullable, element } => {
                let element = element.boxed(alloc)?;
                Ok(Ty::Array {
                    nullable: *nullable,
                    element,
                })
            }
            Ty::Seq(element) => {
                let element = element.boxed(alloc)?;
                Ok(Ty::Seq(element))
            }
            Ty::Set(element) => {
                let element = element.boxed(alloc)?;
                Ok(Ty::Set(element))
            }
            Ty::Datatype { decl, arguments } => {
                let arguments = copies(alloc, arguments)?;
                Ok(Ty::Datatype {
                    decl: *decl,
                    arguments,
                })
            }
            Ty::Parameter(number) => Ok(Ty::Parameter(*number)),
        }
    }

    #[cycle(copy)]
    fn boxed(&self, alloc: Global) -> Result<Box<Ty>, AllocError>
        ensures { IfOk result (λ ty. ty_of ty.value ≡ ty_of self.now) }
    {
        let ty = self.copy(alloc)?;
        Ok(Box::new(alloc, ty)?)
    }

    /// Whether it is an integer type: a newtype, `int` or `nat`.
    pub fn is_number(&self) -> bool
        ensures { result ≡ is_number (ty_of self.now) }
    {
        match self {
            Ty::Newtype(_) | Ty::Int | Ty::Nat => true,
            Ty::Bool
            | Ty::Char
            | Ty::Object { .. }
            | Ty::Class { .. }
            | Ty::Array { .. }
            | Ty::Seq(_)
            | Ty::Set(_)
            | Ty::Datatype { .. }
            | Ty::Parameter(_) => false,
        }
    }

    /// Whether its values are compared by `<`.
    pub fn is_ordered(&self) -> bool
        ensures { result ≡ is_ordered (ty_of self.now) }
    {
        match self {
            Ty::Newtype(_) | Ty::Int | Ty::Nat | Ty::Char => true,
            Ty::Bool
            | Ty::Object { .. }
            | Ty::Class { .. }
            | Ty::Array { .. }
            | Ty::Seq(_)
            | Ty::Set(_)
            | Ty::Datatype { .. }
            | Ty::Parameter(_) => false,
        }
    }
}

/// The same types again.
#[cycle(copy)]
pub fn copies(alloc: Global, types: &Vec<Ty>) -> Result<Vec<Ty>, AllocError>
    ensures { IfOk result (λ made. map ty_of made.items ≡ map ty_of types.now.items) }
{
    let mut made = Vec::with_capacity(alloc, types.len())?;
    for ty in types {
        let ty = ty.copy(alloc)?;
        made.push(ty)?;
    }
    Ok(made)
}

#[cycle(same)]
fn are_arguments(arguments: &Vec<Ty>, decl: DeclId, other: &Ty) -> bool
    ensures { result ≡ same_type (pure.Data decl (tys_of (map ty_of arguments.now.items))) (ty_of other.now) }
{
    match other {
        Ty::Datatype {
            decl: own,
            arguments: others,
        } => decl == *own && are_same(arguments, others),
        Ty::Newtype(_)
        | Ty::Int
        | Ty::Nat
        | Ty::Bool
        | Ty::Char
        | Ty::Object { .. }
        | Ty::Class { .. }
        | Ty::Array { .. }
        | Ty::Seq(_)
        | Ty::Set(_)
        | Ty::Parameter(_) => false,
    }
}

#[cycle(same)]
fn are_same(types: &Vec<Ty>, others: &Vec<Ty>) -> bool
    ensures { result ≡ same_types (tys_of (map ty_of types.now.items)) (tys_of (map ty_of others.now.items)) }
{
    if types.len() != others.len() {
        return false;
    }
    for (i, first) in types.iter().enumerate() {
        match others.get(i) {
            Some(other) => {
                if !first.is_same(other) {
                    return false;
                }
            }
            None => return false,
        }
    }
    true
}

fn is_newtype(other: &Ty, decl: DeclId) -> bool
    ensures { result ≡ same_type (pure.Newtype decl) (ty_of other.now) }
{
    match other {
        Ty::Newtype(own) => decl == *own,
        Ty::Int
        | Ty::Nat
        | Ty::Bool
        | Ty::Char
        | Ty::Object { .. }
        | Ty::Class { .. }
        | Ty::Array { .. }
        | Ty::Seq(_)
        | Ty::Set(_)
        | Ty::Datatype { .. }
        | Ty::Parameter(_) => false,
    }
}

fn is_int(other: &Ty) -> bool
    ensures { result ≡ same_type (pure.Int) (ty_of other.now) }
{
    match other {
        Ty::Int => true,
        Ty::Newtype(_)
        | Ty::Nat
        | Ty::Bool
        | Ty::Char
        | Ty::Object { .. }
        | Ty::Class { .. }
        | Ty::Array { .. }
        | Ty::Seq(_)
        | Ty::Set(_)
        | Ty::Datatype { .. }
        | Ty::Parameter(_) => false,
    }
}

fn is_nat(other: &Ty) -> bool
    ensures { result ≡ same_type (pure.Nat) (ty_of other.now) }
{
    match other {
        Ty::Nat => true,
        Ty::Newtype(_)
        | Ty::Int
        | Ty::Bool
        | Ty::Char
        | Ty::Object { .. }
        | Ty::Class { .. }
        | Ty::Array { .. }
        | Ty::Seq(_)
        | Ty::Set(_)
        | Ty::Datatype { .. }
        | Ty::Parameter(_) => false,
    }
}

fn is_bool(other: &Ty) -> bool
    ensures { result ≡ same_type (pure.Boolean) (ty_of other.now) }
{
    match other {
        Ty::Bool => true,
        Ty::Newtype(_)
        | Ty::Int
        | Ty::Nat
        | Ty::Char
        | Ty::Object { .. }
        | Ty::Class { .. }
        | Ty::Array { .. }
        | Ty::Seq(_)
        | Ty::Set(_)
        | Ty::Datatype { .. }
        | Ty::Parameter(_) => false,
    }
}

fn is_char(other: &Ty) -> bool
    ensures { result ≡ same_type (pure.Char) (ty_of other.now) }
{
    match other {
        Ty::Char => true,
        Ty::Newtype(_)
        | Ty::Int
        | Ty::Nat
        | Ty::Bool
        | Ty::Object { .. }
        | Ty::Class { .. }
        | Ty::Array { .. }
        | Ty::Seq(_)
        | Ty::Set(_)
        | Ty::Datatype { .. }
        | Ty::Parameter(_) => false,
    }
}

fn is_object(other: &Ty, nullable: bool) -> bool
    ensures { result ≡ same_type (pure.AnyObject nullable) (ty_of other.now) }
{
    match other {
        Ty::Object { nullable: own } => nullable == *own,
        Ty::Newtype(_)
        | Ty::Int
        | Ty::Nat
        | Ty::Bool
        | Ty::Char
        | Ty::Class { .. }
        | Ty::Array { .. }
        | Ty::Seq(_)
        | Ty::Set(_)
        | Ty::Datatype { .. }
        | Ty::Parameter(_) => false,
    }
}

fn is_class(other: &Ty, nullable: bool, decl: DeclId) -> bool
    ensures { result ≡ same_type (pure.Class nullable decl) (ty_of other.now) }
{
    match other {
        Ty::Class {
            nullable: own,
            decl: class,
        } => nullable == *own && decl == *class,
        Ty::Newtype(_)
        | Ty::Int
        | Ty::Nat
        | Ty::Bool
        | Ty::Char
        | Ty::Object { .. }
        | Ty::Array { .. }
        | Ty::Seq(_)
        | Ty::Set(_)
        | Ty::Datatype { .. }
        | Ty::Parameter(_) => false,
    }
}

fn is_parameter(other: &Ty, number: usize) -> bool
    ensures { result ≡ same_type (pure.Parameter number) (ty_of other.now) }
{
    match other {
        Ty::Parameter(own) => number == *own,
        Ty::Newtype(_)
        | Ty::Int
        | Ty::Nat
        | Ty::Bool
        | Ty::Char
        | Ty::Object { .. }
        | Ty::Class { .. }
        | Ty::Array { .. }
        | Ty::Seq(_)
        | Ty::Set(_)
        | Ty::Datatype { .. } => false,
    }
}
