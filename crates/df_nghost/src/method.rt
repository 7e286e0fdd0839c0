//! Methods.

ghost use Rattle.std.specs.Prelude.{◌≡◌, [], OnOk, IfErr};
ghost use Rattle.df_base.specs.declared.refusal.Code.TheVariants as codes;
ghost use Rattle.df_base.specs.declared.refusal.Detail.TheVariants as details;
ghost use Rattle.df_base.specs.declared.refusal.Stop.TheVariants as stops;
ghost use Rattle.df_base.specs.Refusing.{IfRefused};
ghost use Rattle.df_lang.specs.DeclView.{method_of};
ghost use Rattle.df_lang.specs.Assignment as pure;
ghost use Rattle.df_nghost.specs.mirror.Refusals.{IsTyped, TellsOf};

use crate::assigned::Assigned;
use crate::flow::Flow;
use crate::reads::Use;
use df_base::{Code, Detail, Global, Refusal, Stop};
use df_lang::Method;

/// The local of the use has no value there.
fn unassigned(used: Use) -> Stop
    ensures { result ≡ stops.Refused (record { code = codes.Unassigned; pos = used.pos; detail = details.Word used.name }) }
{
    Stop::Refused(Refusal {
        code: Code::Unassigned,
        pos: used.pos,
        detail: Detail::Word(used.name),
    })
}

/// Follows the body of a method. It is refused for the first use in it without a value, or else for the first
/// result that its end leaves without one.
pub(crate) fn follow(alloc: Global, method: &Method) -> Result<(), Stop>
    requires { IsTyped (method_of method.now) }
    ensures definite { OnOk result (pure.unassigned_in (method_of method.now) ≡ []) }
    ensures refused { IfErr result (IfRefused (TellsOf (method_of method.now))) }
{
    let mut flow = Flow {
        assigned: Assigned::at_entry(alloc, method.parameters.len(), method.results.len())?,
        first: None,
        alloc,
    };
    flow.stmts(method, &method.body)?;
    if let Some(used) = flow.first {
        return Err(unassigned(used));
    }
    flow.results(method, method.pos);
    match flow.first {
        Some(used) => Err(unassigned(used)),
        None => Ok(()),
    }
}
