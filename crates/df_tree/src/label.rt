//! Labels of syntax trees, and how the trees are built.

/// A construct. What its node holds stands beside it, in order: tokens that are kept, and nodes. `[ ]` may be absent, and
/// `{ }` is any number.
#[derive(Clone, Copy, PartialEq, Eq)]
pub enum Label {
    /// A file: `{ declaration }`.
    File,
    /// `newtype`: its name, a binder, the predicate, `[ witness ]`.
    Newtype,
    /// A variable that its construct binds: its name, `[ type ]`.
    Binder,
    /// The value of `witness`.
    Witness,
    /// `method`: its name, the parameters, `[ results ]`, `{ clause }`, a block.
    Method,
    /// `lemma`: as a method.
    Lemma,
    /// `function`: `[ ghost ]`, its name, the parameters, the result, `{ clause }`, the body.
    Function,
    /// `predicate`: as a function without a result.
    Predicate,
    /// The result of a function: `[ name ]`, its type.
    Result,
    /// `{ parameter }`.
    Parameters,
    /// A parameter or a result: `[ ghost ]`, its name, its type.
    Parameter,
    /// What stands behind `returns`: `{ parameter }`.
    Results,
    /// `requires`: its condition.
    Requires,
    /// `ensures`: its condition.
    Ensures,
    /// `invariant`: its condition.
    Invariant,
    /// `decreases`: its values, at least one.
    Decreases,
    /// A type that is a word, which is kept.
    BasicType,
    /// A type by its name.
    NamedType,
    /// `{ statement }`.
    Block,
    /// `var`: `[ ghost ]`, at least one local, and then nothing, or `:=` and at least one value.
    Var,
    /// A local that `var` declares: its name, `[ type ]`.
    Local,
    /// A primary that is a statement, as a call.
    ExpressionStatement,
    /// At least one primary, `:=`, at least one value.
    Assign,
    /// `if`: at least one guarded block, `[ block ]`.
    If,
    /// A guard and its block.
    Guarded,
    /// `while`: the guard, `{ clause }`, a block.
    While,
    /// `return`: `{ value }`.
    Return,
    /// `break`.
    Break,
    /// `assert`: the condition, and the block of `by`, if any.
    Assert,
    /// `print`: at least one text or value.
    Print,
    /// A string literal, as it is written.
    Text,
    /// `calc`: `[ operator ]`, `{ line }`.
    Calc,
    /// A line of `calc`: its expression, and behind it `[ operator ]`, `{ block }` for its hints.
    Line,
    /// Operands with `<==>` between them, two at least; so are the next ones by their signs.
    Equivalence,
    /// By `==>`; it holds to the right.
    Implication,
    /// By `<==`; it holds to the left.
    Explication,
    /// By `&&`; where the first one has its sign before it too, there may be one alone.
    Conjunction,
    /// By `||`, likewise.
    Disjunction,
    /// By comparisons.
    Chain,
    /// By `+` and `-`; it holds to the left.
    Sum,
    /// By `*`, `/` and `%`; it holds to the left.
    Product,
    /// An operand and the types behind `as`, at least one; it holds to the left.
    As,
    /// `-` and its operand; the sign is kept, as it is between operands.
    Negate,
    /// The operand of `!`.
    Not,
    /// A call of what is no name: that, and `{ argument }`.
    Apply,
    /// A name.
    Name,
    /// A call by a name: the name, `{ argument }`.
    Call,
    /// A number.
    Number,
    /// A character literal.
    Character,
    /// `true` or `false`.
    Truth,
    /// What stands in parentheses.
    Parentheses,
    /// `if .. then .. else ..`: a condition and two branches.
    Conditional,
    /// `var .. := ..; ..`: a `Var` with one local and one value, and the body.
    Let,
    /// `_`.
    Wildcard,
    /// A pattern that is a name: a variable, or a constructor without arguments.
    NamePattern,
    /// A constructor with patterns: its name, `{ pattern }`.
    ConstructorPattern,
}

/// Text from one token to before another, by their numbers.
#[derive(Clone, Copy, PartialEq, Eq)]
pub struct Span {
    pub start: usize,
    pub after: usize,
}

/// What a production does for the syntax tree, whose nodes are made in frames.
#[derive(Clone, Copy, PartialEq, Eq)]
pub enum Way {
    /// Its parts go on in the frame in which it stands.
    Pass,
    /// So they do, and the frame has this title, if it has none.
    Title(Label),
    /// So they do, and then all that the frame has is in a node of its title, or else of this label.
    Wrap(Label),
    /// It has a frame of its own, which is a node of its title, or else of this label.
    Make(Label),
    /// It has a frame of its own, which is a node of its title, and falls away if it has none.
    Close,
}
