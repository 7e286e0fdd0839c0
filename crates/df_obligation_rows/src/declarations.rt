//! What terms tell of the declarations of a program: their names, and the ends of newtypes.

use df_lang::{Decl, DeclId, Program};
use std::alloc::{AllocError, Global};

/// The name of a declaration, and the least and the greatest number of a newtype.
#[derive(Clone, Copy)]
pub struct Head<'a> {
    pub name: &'a str,
    pub ends: Option<(i128, i128)>,
}

fn head_of(decl: &Decl) -> Head<'_> {
    match decl {
        Decl::Method(method) => Head {
            name: method.declared.text.as_str(),
            ends: None,
        },
        Decl::Newtype(newtype) => Head {
            name: newtype.declared.text.as_str(),
            ends: Some((newtype.interval.low, newtype.interval.high)),
        },
    }
}

fn push_heads<'a>(heads: &mut Vec<Head<'a>>, decls: &'a [Decl]) -> Result<(), AllocError> {
    for decl in decls {
        heads.push(head_of(decl))?;
    }
    Ok(())
}

/// The head of each declaration, by its number.
pub fn heads(alloc: Global, program: &Program) -> Result<Vec<Head<'_>>, AllocError> {
    let mut heads = Vec::new(alloc);
    push_heads(&mut heads, &program.decls)?;
    Ok(heads)
}

/// The name of a declaration.
pub(crate) fn name_of<'a>(heads: &[Head<'a>], number: DeclId) -> &'a str {
    match heads.get(number) {
        Some(head) => head.name,
        None => "",
    }
}
