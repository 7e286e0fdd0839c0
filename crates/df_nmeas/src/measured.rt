use df_form::Term;
use df_lang::Ty;

/// A member of a measure: its value, of a type.
#[derive(Clone, Copy)]
pub struct Measured {
    pub ty: Ty,
    pub value: Term,
}
