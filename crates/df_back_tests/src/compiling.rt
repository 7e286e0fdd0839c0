//! From a program to its code, and what it does there.

ghost use Rattle.std.specs.Prelude.{◌≡◌, true, map, IfOk};
ghost use Rattle.df_lang.specs.declared.ty.Ty.TheVariants as types;
ghost use Rattle.df_lang.specs.ExprView.{expr_of};
ghost use Rattle.df_lang.specs.StmtView.{target_of, clause_of, update_of, stmt_of, stmts_of};
ghost use Rattle.df_lang.specs.DeclView.{declared_of, decl_of};
ghost use Rattle.df_lang.specs.View.{program_of};
ghost use Rattle.df_lang.specs.Typing.{is_well_typed};
ghost use Rattle.df_nback.specs.MethodNames.{has_names};
ghost use Rattle.df_nback.specs.Run.{IsCompiled};
ghost use Rattle.df_nmach.specs.View.{code_of};
ghost use Rattle.df_back_tests.specs.Digits as pure;

use crate::ending::is_ended;
use df_base::{Pos, Sink, SureSink};
use df_lang::{
    Addend, AddendOperator, Call, Clause, Comparison, Decl, Declared, Expr, Interval, Link, Method,
    Newtype, Operand, Program, Source, Stmt, Target, Ty, Update, Variable,
};
use df_listing::write;
use df_nback::{EraseFault, compile, number_on_machine};
use df_nmach::{Code, Heap};
use df_nvm::Vm;
use std::alloc::{AllocError, Global};
use std::test::Fail;

const HERE: Pos = Pos { line: 1, col: 1 };

/// Where the loop's local is declared.
const LOCAL: Pos = Pos { line: 4, col: 7 };

fn declared(alloc: Global, text: &str) -> Result<Declared, AllocError>
    ensures { IfOk result (λ declared. declared_of declared ≡ pure.named text.now) }
{
    let text = String::from_str(alloc, text)?;
    Ok(Declared {
        name: 0,
        text,
        pos: HERE,
    })
}

/// The numbers of 32 bits.
fn bits(alloc: Global) -> Result<Decl, Fail>
    ensures { IfOk result (λ decl. decl_of decl ≡ pure.bits) }
{
    let declared = declared(alloc, "i32")?;
    let interval = Interval::new(-2147483648, 2147483647).ok_or("ordered")?;
    Ok(Decl::Newtype(Newtype {
        declared,
        interval,
        default: 0,
    }))
}

fn number(ty: Ty, value: i128) -> Expr
    ensures { expr_of result ≡ pure.number ty value }
{
    Expr::Number {
        ty,
        value,
        pos: HERE,
    }
}

/// The local.
fn counter() -> Expr
    ensures { expr_of result ≡ pure.counter }
{
    Expr::Local {
        local: 0,
        name: 0,
        pos: HERE,
    }
}

/// The local, compared with 3.
fn against_three(alloc: Global, ty: Ty, comparison: Comparison) -> Result<Expr, AllocError>
    ensures { IfOk result (λ value. expr_of value ≡ pure.against_three ty comparison) }
{
    let first = Box::new(alloc, counter())?;
    let link = Link {
        comparison,
        pos: HERE,
        operand: number(ty, 3),
    };
    let rest = vec![in alloc; link]?;
    Ok(Expr::Chain { ty, first, rest })
}

/// The local and 1.
fn one_more(alloc: Global, ty: Ty) -> Result<Expr, AllocError>
    ensures { IfOk result (λ value. expr_of value ≡ pure.one_more ty) }
{
    let first = Box::new(alloc, counter())?;
    let addend = Addend {
        operator: AddendOperator::Plus,
        pos: HERE,
        operand: number(ty, 1),
    };
    let rest = vec![in alloc; addend]?;
    Ok(Expr::Sum { ty, first, rest })
}

/// The local alone.
fn targets(alloc: Global, ty: Ty) -> Result<Vec<Target>, AllocError>
    ensures { IfOk result (λ targets. map target_of targets.items ≡ pure.targets ty) }
{
    let target = Target {
        local: 0,
        name: 0,
        pos: HERE,
        ty,
    };
    let targets = vec![in alloc; target]?;
    Ok(targets)
}

/// The local takes the value.
fn takes(alloc: Global, ty: Ty, value: Expr) -> Result<Update, AllocError>
    ensures { IfOk result (λ update. update_of update ≡ pure.takes ty (expr_of value)) }
{
    let sources = vec![in alloc; Source::Value { ty, value }]?;
    match targets(alloc, ty) {
        Ok(targets) => Ok(Update { targets, sources }),
        Err(error) => Err(error),
    }
}

/// `var i: TY := 0;`
fn declare(alloc: Global, ty: Ty) -> Result<Stmt, AllocError>
    ensures { IfOk result (λ stmt. stmt_of stmt ≡ pure.declare ty) }
{
    let variable = Variable {
        name: 0,
        pos: LOCAL,
        ty,
        is_ghost: false,
        local: 0,
    };
    let variables = vec![in alloc; variable]?;
    let update = takes(alloc, ty, number(ty, 0))?;
    Ok(Stmt::Var {
        pos: HERE,
        variables,
        update: Some(update),
    })
}

/// `print i;`
fn print(alloc: Global, ty: Ty) -> Result<Stmt, AllocError>
    ensures { IfOk result (λ stmt. stmt_of stmt ≡ pure.print ty) }
{
    let value = counter();
    let operands = vec![in alloc; Operand::Value { ty, value }]?;
    Ok(Stmt::Print {
        pos: HERE,
        operands,
    })
}

/// `i := i + 1;`
fn count(alloc: Global, ty: Ty) -> Result<Stmt, AllocError>
    ensures { IfOk result (λ stmt. stmt_of stmt ≡ pure.count ty) }
{
    let value = one_more(alloc, ty)?;
    let update = takes(alloc, ty, value)?;
    Ok(Stmt::Assign { pos: HERE, update })
}

/// `invariant i <= 3`
fn invariants(alloc: Global, ty: Ty) -> Result<Vec<Clause>, AllocError>
    ensures { IfOk result (λ invariants. map clause_of invariants.items ≡ pure.invariants ty) }
{
    let condition = against_three(alloc, ty, Comparison::AtMost)?;
    let invariant = Clause {
        pos: HERE,
        condition,
    };
    let invariants = vec![in alloc; invariant]?;
    Ok(invariants)
}

/// `print i; i := i + 1;`
fn body(alloc: Global, ty: Ty) -> Result<Vec<Stmt>, AllocError>
    ensures { IfOk result (λ body. stmts_of (map stmt_of body.items) ≡ pure.body ty) }
{
    let first = print(alloc, ty)?;
    match count(alloc, ty) {
        Ok(second) => Ok(vec![in alloc; first, second]?),
        Err(error) => Err(error),
    }
}

/// `while i < 3 INVARIANTS { print i; i := i + 1; }`
fn repeated(alloc: Global, ty: Ty, invariants: Vec<Clause>) -> Result<Stmt, AllocError>
    ensures { IfOk result (λ stmt. stmt_of stmt ≡ pure.repeated ty (map clause_of invariants.items)) }
{
    let guard = against_three(alloc, ty, Comparison::Less)?;
    match body(alloc, ty) {
        Ok(body) => Ok(Stmt::While {
            pos: HERE,
            guard,
            invariants,
            decreases: None,
            body,
        }),
        Err(error) => Err(error),
    }
}

/// `while i < 3 invariant i <= 3 { print i; i := i + 1; }`
fn repeat(alloc: Global, ty: Ty) -> Result<Stmt, AllocError>
    ensures { IfOk result (λ stmt. stmt_of stmt ≡ pure.repeat ty) }
{
    let invariants = invariants(alloc, ty)?;
    repeated(alloc, ty, invariants)
}

fn method(alloc: Global, text: &str, body: Vec<Stmt>) -> Result<Decl, AllocError>
    ensures { IfOk result (λ decl. decl_of decl ≡ pure.method text.now (stmts_of (map stmt_of body.items))) }
{
    let declared = declared(alloc, text)?;
    Ok(Decl::Method(Method {
        declared,
        parameters: Vec::new(alloc),
        results: Vec::new(alloc),
        preconditions: Vec::new(alloc),
        postconditions: Vec::new(alloc),
        decreases: None,
        pos: HERE,
        body,
    }))
}

/// Prints 0 to 2.
fn printing(alloc: Global, ty: Ty) -> Result<Decl, AllocError>
    ensures { IfOk result (λ decl. decl_of decl ≡ pure.printing ty) }
{
    let first = declare(alloc, ty)?;
    match repeat(alloc, ty) {
        Ok(second) => {
            let body = vec![in alloc; first, second]?;
            method(alloc, "Loop", body)
        }
        Err(error) => Err(error),
    }
}

fn entry(alloc: Global) -> Result<Decl, AllocError>
    ensures { IfOk result (λ decl. decl_of decl ≡ pure.entry) }
{
    let call = Call {
        callee: 1,
        name: 0,
        pos: HERE,
        arguments: Vec::new(alloc),
    };
    let body = vec![in alloc; Stmt::Call(call)]?;
    method(alloc, "Main", body)
}

/// A newtype, a method that prints 0 to 2 in a loop over a local of the type, and an entry that calls it.
fn digits_program(alloc: Global, ty: Ty) -> Result<Program, Fail>
    requires { is_well_typed (pure.program ty) ≡ true }
    ensures program { IfOk result (λ program. program_of program ≡ pure.program ty) }
    ensures names { IfOk result (λ program. has_names (program_of program) ≡ true) }
{
    let newtype = bits(alloc)?;
    let first = printing(alloc, ty)?;
    let second = entry(alloc)?;
    let decls = vec![in alloc; newtype, first, second]?;
    Ok(Program::new(decls))
}

/// The machine at the beginning of the entry.
fn entry_vm<'a>(alloc: Global, program: &Program, code: &'a Code) -> Result<Vm<'a>, AllocError>
    requires program { program_of program.now ≡ pure.program (types.Newtype 0) }
    requires compiled { IsCompiled (program_of program.now) (code_of code.now) }
{
    Vm::new(alloc, code, 1, Heap::new(alloc), Vec::new(alloc))
}

/// The loop's local has the place behind the scratch local, which each method has.
const LISTING: &str = "dfycode 1\nshape num\nshape truth\nshape char\nshape text\n\
    method Loop 0 0 2 14\nnum 0\nset 1\n\
    get 1\nnum 3\nless\nunless 13\n\
    get 1\nprint 0\n\
    get 1\nnum 1\nadd -2147483648 2147483647\nset 1\n\
    jump 2\nret 0\n\
    method Main 0 0 1 2\ncall 0\nret 0\nend\n";

/// Whether the listing of a code is this one.
fn is_written(alloc: Global, code: &Code) -> bool {
    match write(alloc, code) {
        Ok(text) => text.as_slice() == LISTING.as_bytes(),
        Err(_) => false,
    }
}

/// Whether a program has a code of this listing.
fn is_listed(alloc: Global, program: &Program) -> bool
    requires { has_names (program_of program.now) ≡ true }
{
    match compile(alloc, program) {
        Ok(code) => is_written(alloc, &code),
        Err(_) => false,
    }
}

#[test]
fn a_program_becomes_its_code(rt: HostRuntime) -> Result<(), Fail> {
    let program = digits_program(rt.alloc(), Ty::Newtype(0))?;
    assert!(rt; is_listed(rt.alloc(), &program));
    Ok(())
}

/// Declarations and their numbers on the machine.
const NUMBERED: [(usize, usize); 4] = [(0, 0), (1, 0), (2, 1), (3, 2)];

#[test]
fn its_methods_have_numbers_on_the_machine(rt: HostRuntime) -> Result<(), Fail> {
    let program = digits_program(rt.alloc(), Ty::Newtype(0))?;
    for (number, on_machine) in &NUMBERED {
        assert!(rt; number_on_machine(&program, *number) == *on_machine);
    }
    Ok(())
}

/// The call, the 40 steps of the loop, and the return.
const STEPS: u64 = 42;

/// Whether the code ends with this fuel, or else spends it.
fn runs(alloc: Global, program: &Program, fuel: u64, ends: bool, sink: &mut SureSink) -> bool
    requires program { program_of program.now ≡ pure.program (types.Newtype 0) }
    requires names { has_names (program_of program.now) ≡ true }
{
    match compile(alloc, program) {
        Ok(code) => match entry_vm(alloc, program, &code) {
            Ok(vm) => is_ended(&vm.run(fuel, sink), ends),
            Err(_) => false,
        },
        Err(_) => false,
    }
}

/// Whether the code spends one step less than it takes, and ends in as many as it takes.
fn runs_both(alloc: Global, program: &Program, sink: &mut SureSink) -> bool
    requires program { program_of program.now ≡ pure.program (types.Newtype 0) }
    requires names { has_names (program_of program.now) ≡ true }
{
    runs(alloc, program, STEPS - 1, false, &mut *sink) && runs(alloc, program, STEPS, true, sink)
}

/// Whether both runs print 0 to 2.
fn prints(alloc: Global, program: &Program) -> bool
    requires program { program_of program.now ≡ pure.program (types.Newtype 0) }
    requires names { has_names (program_of program.now) ≡ true }
{
    let mut sink = SureSink::new(alloc);
    runs_both(alloc, program, &mut sink) && sink.taken() == b"012012".as_slice()
}

#[test]
fn its_code_runs(rt: HostRuntime) -> Result<(), Fail> {
    let program = digits_program(rt.alloc(), Ty::Newtype(0))?;
    assert!(rt; prints(rt.alloc(), &program));
    Ok(())
}

/// Whether a program is refused for the local without bounds.
fn is_refused(alloc: Global, program: &Program) -> bool
    requires { has_names (program_of program.now) ≡ true }
{
    match compile(alloc, program) {
        Ok(_) => false,
        Err(fault) => fault == EraseFault::NotNative(LOCAL, 1),
    }
}

#[test]
fn a_local_without_bounds_is_refused(rt: HostRuntime) -> Result<(), Fail> {
    let program = digits_program(rt.alloc(), Ty::Int)?;
    assert!(rt; is_refused(rt.alloc(), &program));
    Ok(())
}
