//! Instructions that go together.

ghost use Rattle.std.specs.Prelude.{◌≡◌, ◌≤◌, [], ◌∷◌, ◌++◌, length, IfOk, OnOk};
ghost use Rattle.df_nplain.specs.Kind as kinds;
ghost use Rattle.df_nmach.specs.declared.instruction.Instruction.TheVariants as jumps;
ghost use Rattle.df_nemit.specs.Code as pure;
ghost use Rattle.df_nemit.specs.mirror.Drafts.{run_of};
ghost use Rattle.df_nemit.specs.mirror.Emitting as mirror;

use df_lang::{AddendOperator, Comparison, FactorOperator, Junction};
use df_nmach::{BinaryOperator, Instruction, Range, UnaryOperator};
use df_nplain::Kind;
use std::alloc::AllocError;

/// The shapes of the code by their numbers.
pub(crate) const NUMBER: usize = 0;

pub(crate) const TRUTH: usize = 1;

pub(crate) const CHARACTER: usize = 2;

pub(crate) const TEXT: usize = 3;

/// The frame's number of a local. No frame has one for the highest number that there is.
pub(crate) fn slot(scratch: usize, local: usize) -> Result<usize, AllocError>
    ensures { IfOk result (λ number. number ≡ pure.slot scratch local) }
{
    if local < scratch {
        return Ok(local);
    }
    if local == usize::MAX {
        return Err(AllocError);
    }
    Ok(local + 1)
}

/// The range of results. Those of a program all have an interval.
pub(crate) fn range_of(range: df_nplain::Range) -> Range
    ensures { result ≡ pure.range_of (kinds.range_of range) }
{
    match range {
        df_nplain::Range::Between(interval) => Range {
            low: interval.low,
            high: interval.high,
        },
        df_nplain::Range::Unbounded => Range {
            low: i128::MIN,
            high: i128::MAX,
        },
    }
}

/// One more instruction.
pub(crate) fn put(code: &mut Vec<Instruction>, instruction: Instruction) -> Result<(), AllocError>
    ensures ok { OnOk result (code.new.items ≡ code.old.items ++ instruction ∷ []) }
    ensures longer { length code.old.items ≤ length code.new.items }
{
    code.push(instruction)?;
    Ok(())
}

/// A jump whose target comes later.
pub(crate) fn leave(code: &mut Vec<Instruction>, exits: &mut Vec<usize>) -> Result<(), AllocError>
    ensures ok { OnOk result (run_of code.new exits.new ≡ mirror.leave (run_of code.old exits.old)) }
    ensures longer { length code.old.items ≤ length code.new.items }
{
    exits.push(code.len())?;
    code.push(Instruction::Jump(0))?;
    Ok(())
}

/// The jumps go to this place.
pub(crate) fn land(code: &mut Vec<Instruction>, exits: &Vec<usize>, target: usize)
    ensures land { code.new.items ≡ mirror.fill (jumps.Jump target) exits.now.items code.old.items }
    ensures long { length code.new.items ≡ length code.old.items }
{
    for place in exits {
        if *place < code.len() {
            code[*place] = Instruction::Jump(target);
        }
    }
}

/// Pops a truth, and leaves the run with a truth if it is true.
pub(crate) fn decide(
    code: &mut Vec<Instruction>,
    exits: &mut Vec<usize>,
    truth: bool,
) -> Result<(), AllocError>
    ensures ok { OnOk result (run_of code.new exits.new ≡ mirror.decided (run_of code.old exits.old) truth) }
    ensures longer { length code.old.items ≤ length code.new.items }
{
    let place = code.len();
    put(code, Instruction::Unless(place + 3))?;
    put(code, Instruction::Truth(truth))?;
    leave(code, exits)
}

/// Pops a truth, and leaves the run with a truth if it is false.
pub(crate) fn decide_unless(
    code: &mut Vec<Instruction>,
    exits: &mut Vec<usize>,
    truth: bool,
) -> Result<(), AllocError>
    ensures ok { OnOk result (run_of code.new exits.new ≡ mirror.decided_unless (run_of code.old exits.old) truth) }
    ensures longer { length code.old.items ≤ length code.new.items }
{
    put(code, Instruction::Unary(UnaryOperator::Not))?;
    decide(code, exits, truth)
}

/// Between two members of a junction: leaves the run where the left one decides it.
pub(crate) fn between(
    code: &mut Vec<Instruction>,
    exits: &mut Vec<usize>,
    junction: Junction,
) -> Result<(), AllocError>
    ensures ok { OnOk result (run_of code.new exits.new ≡ mirror.put_between (run_of code.old exits.old) junction) }
    ensures longer { length code.old.items ≤ length code.new.items }
{
    match junction {
        Junction::And => decide_unless(code, exits, false),
        Junction::Or => decide(code, exits, true),
    }
}

pub(crate) fn adds(operator: AddendOperator, range: df_nplain::Range) -> Instruction
    ensures { result ≡ pure.adds operator (kinds.range_of range) }
{
    let range = range_of(range);
    match operator {
        AddendOperator::Plus => Instruction::Binary(BinaryOperator::Add(range)),
        AddendOperator::Minus => Instruction::Binary(BinaryOperator::Subtract(range)),
    }
}

pub(crate) fn multiplies(operator: FactorOperator, range: df_nplain::Range) -> Instruction
    ensures { result ≡ pure.multiplies operator (kinds.range_of range) }
{
    let range = range_of(range);
    match operator {
        FactorOperator::Times => Instruction::Binary(BinaryOperator::Multiply(range)),
        FactorOperator::Divide => Instruction::Binary(BinaryOperator::Divide(range)),
        FactorOperator::Modulo => Instruction::Binary(BinaryOperator::Modulo(range)),
    }
}

/// Compares the two on top by an operator, or by its opposite.
fn compare_by(
    code: &mut Vec<Instruction>,
    operator: BinaryOperator,
    is_turned: bool,
) -> Result<(), AllocError>
    ensures ok { OnOk result (code.new.items ≡ code.old.items ++ mirror.compare_by operator is_turned) }
    ensures longer { length code.old.items ≤ length code.new.items }
{
    put(code, Instruction::Binary(operator))?;
    if is_turned {
        put(code, Instruction::Unary(UnaryOperator::Not))?;
    }
    Ok(())
}

/// Compares the two on top.
pub(crate) fn compare(code: &mut Vec<Instruction>, comparison: Comparison) -> Result<(), AllocError>
    ensures ok { OnOk result (code.new.items ≡ code.old.items ++ pure.compare comparison) }
    ensures longer { length code.old.items ≤ length code.new.items }
{
    match comparison {
        Comparison::Equal => compare_by(code, BinaryOperator::Same, false),
        Comparison::NotEqual => compare_by(code, BinaryOperator::Same, true),
        Comparison::Less => compare_by(code, BinaryOperator::Less, false),
        Comparison::AtMost => compare_by(code, BinaryOperator::AtMost, false),
        Comparison::Greater => compare_by(code, BinaryOperator::AtMost, true),
        Comparison::AtLeast => compare_by(code, BinaryOperator::Less, true),
    }
}

/// Compares the two on top, leaves the chain if that is false, and has the right one on top again.
pub(crate) fn keep(
    code: &mut Vec<Instruction>,
    exits: &mut Vec<usize>,
    scratch: usize,
    comparison: Comparison,
) -> Result<(), AllocError>
    ensures ok { OnOk result (run_of code.new exits.new ≡ mirror.kept scratch (run_of code.old exits.old) comparison) }
    ensures longer { length code.old.items ≤ length code.new.items }
{
    put(code, Instruction::Set(scratch))?;
    put(code, Instruction::Get(scratch))?;
    compare(code, comparison)?;
    decide_unless(code, exits, false)?;
    put(code, Instruction::Get(scratch))
}

/// Makes the number of a value of the kind.
pub(crate) fn from_kind(code: &mut Vec<Instruction>, kind: Kind) -> Result<(), AllocError>
    ensures ok { OnOk result (code.new.items ≡ code.old.items ++ pure.from_kind (kinds.kind_of kind)) }
    ensures longer { length code.old.items ≤ length code.new.items }
{
    match kind {
        Kind::Number(_) | Kind::Truth => Ok(()),
        Kind::Character => put(code, Instruction::Unary(UnaryOperator::Code)),
    }
}

/// Makes the value of the kind of a number.
pub(crate) fn to_kind(code: &mut Vec<Instruction>, kind: Kind) -> Result<(), AllocError>
    ensures ok { OnOk result (code.new.items ≡ code.old.items ++ pure.to_kind (kinds.kind_of kind)) }
    ensures longer { length code.old.items ≤ length code.new.items }
{
    match kind {
        Kind::Number(df_nplain::Range::Unbounded) | Kind::Truth => Ok(()),
        Kind::Number(range) => put(
            code,
            Instruction::Unary(UnaryOperator::Fit(range_of(range))),
        ),
        Kind::Character => put(code, Instruction::Unary(UnaryOperator::Character)),
    }
}

/// The shape of values of the kind.
pub(crate) fn shape_of(kind: Kind) -> usize
    ensures { result ≡ pure.shape_of (kinds.kind_of kind) }
{
    match kind {
        Kind::Number(_) => NUMBER,
        Kind::Truth => TRUTH,
        Kind::Character => CHARACTER,
    }
}
