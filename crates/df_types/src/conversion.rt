//! How types go together: which values of one are values of another.

ghost use Rattle.std.specs.Prelude.{◌≡◌, true};
ghost use Rattle.df_types.specs.Types.{fits, narrows, converts, casts};
ghost use Rattle.df_types.specs.Ty as pure;
ghost use Rattle.df_types.specs.TyView.{ty_of};

use crate::ty::{DeclId, Ty};

impl Ty {
    /// Whether each of its values is one of the other type.
    #[cycle(fits)]
    pub fn fits(&self, other: &Ty) -> bool
        ensures { result ≡ fits (ty_of self.now) (ty_of other.now) }
    {
        match self {
            Ty::Nat => takes_naturals(other),
            Ty::Object { nullable } => takes_objects(other, *nullable),
            Ty::Class { nullable, decl } => takes_instances(other, *nullable, *decl),
            Ty::Array { nullable, element } => takes_arrays(other, *nullable, element),
            Ty::Seq(element) => element.fits_sequence(other),
            Ty::Set(element) => element.fits_set(other),
            Ty::Newtype(_)
            | Ty::Int
            | Ty::Bool
            | Ty::Char
            | Ty::Datatype { .. }
            | Ty::Parameter(_) => self.is_same(other),
        }
    }

    #[cycle(fits)]
    fn fits_sequence(&self, other: &Ty) -> bool
        ensures { result ≡ fits (pure.Seq (ty_of self.now)) (ty_of other.now) }
    {
        match other {
            Ty::Seq(element) => self.fits(element),
            Ty::Newtype(_)
            | Ty::Int
            | Ty::Nat
            | Ty::Bool
            | Ty::Char
            | Ty::Object { .. }
            | Ty::Class { .. }
            | Ty::Array { .. }
            | Ty::Set(_)
            | Ty::Datatype { .. }
            | Ty::Parameter(_) => false,
        }
    }

    #[cycle(fits)]
    fn fits_set(&self, other: &Ty) -> bool
        ensures { result ≡ fits (pure.Set (ty_of self.now)) (ty_of other.now) }
    {
        match other {
            Ty::Set(element) => self.fits(element),
            Ty::Newtype(_)
            | Ty::Int
            | Ty::Nat
            | Ty::Bool
            | Ty::Char
            | Ty::Object { .. }
            | Ty::Class { .. }
            | Ty::Array { .. }
            | Ty::Seq(_)
            | Ty::Datatype { .. }
            | Ty::Parameter(_) => false,
        }
    }

    /// Whether a value of it may be one of the other type, though not each is.
    pub fn narrows(&self, other: &Ty) -> bool
        ensures { result ≡ narrows (ty_of self.now) (ty_of other.now) }
    {
        match self {
            Ty::Int => is_natural(other),
            Ty::Object { nullable } => *nullable && is_object(other),
            Ty::Class { nullable, decl } => *nullable && is_instance(other, *decl),
            Ty::Array { nullable, element } => *nullable && is_array(other, element),
            Ty::Newtype(_)
            | Ty::Nat
            | Ty::Bool
            | Ty::Char
            | Ty::Seq(_)
            | Ty::Set(_)
            | Ty::Datatype { .. }
            | Ty::Parameter(_) => false,
        }
    }

    /// Whether it fits or narrows to the other type.
    pub fn converts(&self, other: &Ty) -> bool
        ensures { result ≡ converts (ty_of self.now) (ty_of other.now) }
    {
        self.fits(other) || self.narrows(other)
    }

    /// Whether `as` goes from it to the other type.
    pub fn casts(&self, other: &Ty) -> bool
        ensures { result ≡ casts (ty_of self.now) (ty_of other.now) }
    {
        match self {
            Ty::Newtype(_) | Ty::Int | Ty::Nat => other.is_ordered(),
            Ty::Char => other.is_number(),
            Ty::Bool
            | Ty::Object { .. }
            | Ty::Class { .. }
            | Ty::Array { .. }
            | Ty::Seq(_)
            | Ty::Set(_)
            | Ty::Datatype { .. }
            | Ty::Parameter(_) => false,
        }
    }
}

fn takes_naturals(target: &Ty) -> bool
    ensures { result ≡ fits pure.Nat (ty_of target.now) }
{
    match target {
        Ty::Int | Ty::Nat => true,
        Ty::Newtype(_)
        | Ty::Bool
        | Ty::Char
        | Ty::Object { .. }
        | Ty::Class { .. }
        | Ty::Array { .. }
        | Ty::Seq(_)
        | Ty::Set(_)
        | Ty::Datatype { .. }
        | Ty::Parameter(_) => false,
    }
}

fn takes_objects(target: &Ty, nullable: bool) -> bool
    ensures { result ≡ fits (pure.AnyObject nullable) (ty_of target.now) }
{
    match target {
        Ty::Object { nullable: own } => *own || !nullable,
        Ty::Newtype(_)
        | Ty::Int
        | Ty::Nat
        | Ty::Bool
        | Ty::Char
        | Ty::Class { .. }
        | Ty::Array { .. }
        | Ty::Seq(_)
        | Ty::Set(_)
        | Ty::Datatype { .. }
        | Ty::Parameter(_) => false,
    }
}

fn takes_instances(target: &Ty, nullable: bool, decl: DeclId) -> bool
    ensures { result ≡ fits (pure.Class nullable decl) (ty_of target.now) }
{
    match target {
        Ty::Object { nullable: own } => *own || !nullable,
        Ty::Class {
            nullable: own,
            decl: class,
        } => decl == *class && (*own || !nullable),
        Ty::Newtype(_)
        | Ty::Int
        | Ty::Nat
        | Ty::Bool
        | Ty::Char
        | Ty::Array { .. }
        | Ty::Seq(_)
        | Ty::Set(_)
        | Ty::Datatype { .. }
        | Ty::Parameter(_) => false,
    }
}

fn takes_arrays(target: &Ty, nullable: bool, element: &Ty) -> bool
    ensures { result ≡ fits (pure.Array nullable (ty_of element.now)) (ty_of target.now) }
{
    match target {
        Ty::Object { nullable: own } => *own || !nullable,
        Ty::Array {
            nullable: own,
            element: member,
        } => element.is_same(member) && (*own || !nullable),
        Ty::Newtype(_)
        | Ty::Int
        | Ty::Nat
        | Ty::Bool
        | Ty::Char
        | Ty::Class { .. }
        | Ty::Seq(_)
        | Ty::Set(_)
        | Ty::Datatype { .. }
        | Ty::Parameter(_) => false,
    }
}

fn is_natural(target: &Ty) -> bool
    ensures { result ≡ narrows pure.Int (ty_of target.now) }
{
    match target {
        Ty::Nat => true,
        Ty::Newtype(_)
        | Ty::Int
        | Ty::Bool
        | Ty::Char
        | Ty::Object { .. }
        | Ty::Class { .. }
        | Ty::Array { .. }
        | Ty::Seq(_)
        | Ty::Set(_)
        | Ty::Datatype { .. }
        | Ty::Parameter(_) => false,
    }
}

fn is_object(target: &Ty) -> bool
    ensures { result ≡ narrows (pure.AnyObject true) (ty_of target.now) }
{
    match target {
        Ty::Object { nullable } => !*nullable,
        Ty::Newtype(_)
        | Ty::Int
        | Ty::Nat
        | Ty::Bool
        | Ty::Char
        | Ty::Class { .. }
        | Ty::Array { .. }
        | Ty::Seq(_)
        | Ty::Set(_)
        | Ty::Datatype { .. }
        | Ty::Parameter(_) => false,
    }
}

fn is_instance(target: &Ty, decl: DeclId) -> bool
    ensures { result ≡ narrows (pure.Class true decl) (ty_of target.now) }
{
    match target {
        Ty::Class {
            nullable,
            decl: class,
        } => !*nullable && decl == *class,
        Ty::Newtype(_)
        | Ty::Int
        | Ty::Nat
        | Ty::Bool
        | Ty::Char
        | Ty::Object { .. }
        | Ty::Array { .. }
        | Ty::Seq(_)
        | Ty::Set(_)
        | Ty::Datatype { .. }
        | Ty::Parameter(_) => false,
    }
}

fn is_array(target: &Ty, element: &Ty) -> bool
    ensures { result ≡ narrows (pure.Array true (ty_of element.now)) (ty_of target.now) }
{
    match target {
        Ty::Array {
            nullable,
            element: member,
        } => !*nullable && element.is_same(member),
        Ty::Newtype(_)
        | Ty::Int
        | Ty::Nat
        | Ty::Bool
        | Ty::Char
        | Ty::Object { .. }
        | Ty::Class { .. }
        | Ty::Seq(_)
        | Ty::Set(_)
        | Ty::Datatype { .. }
        | Ty::Parameter(_) => false,
    }
}
