//! What each construct is, for names and typing: one row for each label.

ghost use Rattle.std.specs.Prelude.{◌≡◌};
ghost use Rattle.df_typing.specs.Form as pure;
ghost use Rattle.df_typing.specs.Form.{row_of};

use df_tree::Label;

/// How a declared name may be used.
#[derive(Clone, Copy, PartialEq, Eq)]
pub enum Role {
    /// It keeps its value.
    Parameter,
    Result,
    Variable,
    /// Bound in an expression; it keeps its value.
    Bound,
}

/// What stands around the parts of a construct, where it is something else than around the construct.
#[derive(Clone, Copy, PartialEq, Eq)]
pub enum Within {
    Same,
    /// Nothing but the meaning of names is asked.
    Names,
    /// Nothing that is declared around is seen.
    Alone,
    /// What is declared has this role.
    Declaring(Role),
    /// Statements: what is declared is a variable, and results are seen.
    Body,
    /// A clause that sees the results.
    Promise,
    /// Clauses of a loop, and statements that `break` may leave.
    Loop,
    /// Statements that no `break` leaves.
    Proof,
}

/// What a construct's own name is.
#[derive(Clone, Copy, PartialEq, Eq)]
pub enum Naming {
    /// It has none, or one that is no name in scope.
    Nameless,
    /// Declared here.
    Declared,
    /// That of a local, or else of what can be called.
    Value,
    /// A type, by its name or by its word.
    Type,
}

/// How the parts of a construct are used.
#[derive(Clone, Copy, PartialEq, Eq)]
pub enum Uses {
    /// All are values, types or statements.
    Values,
    /// Behind `:=` stand right sides.
    Initial,
    /// So they do, and before it what is assigned.
    Assigned,
    /// All are right sides.
    Returned,
    /// The part is a whole statement.
    Whole,
}

/// The type that an open part is expected to have.
#[derive(Clone, Copy, PartialEq, Eq)]
pub enum Demand {
    Nothing,
    /// That of the nearest part with a type of its own, on its left or else on its right; else what is expected of the
    /// whole.
    Neighbours,
    /// Of the parts from this one on: what is expected of the whole, else that of a neighbour.
    Branches(usize),
    /// Of this part: what is expected of the whole.
    Passed(usize),
    /// That of its place.
    Given,
}

/// The places that parts go to.
#[derive(Clone, Copy, PartialEq, Eq)]
pub enum Places {
    Nowhere,
    /// Arguments go to the parameters of what is called.
    Parameters,
    /// Right sides go to what is declared or assigned.
    Targets,
    /// They go to the results of the declaration around.
    Results,
    /// The last part goes to the result of the function.
    Body,
}

/// The own type of a construct.
#[derive(Clone, Copy, PartialEq, Eq)]
pub enum Own {
    /// It has none.
    Untyped,
    Truth,
    Character,
    Text,
    /// A number, which is open.
    Digits,
    /// A sign before an operand.
    Minus,
    /// Arithmetic of the parts.
    Arithmetic,
    /// That of this part.
    Passed(usize),
    /// That of the last part.
    Last,
    /// What the parts from this one on have in common.
    Branches(usize),
    /// That of what its name means.
    Named,
    /// The type that it names.
    Type,
    /// That of its local.
    Local,
}

/// The token at which it is told.
#[derive(Clone, Copy, PartialEq, Eq)]
pub enum Head {
    First,
    FirstSign,
    LastSign,
}

/// What clauses belong to.
#[derive(Clone, Copy, PartialEq, Eq)]
pub enum Owner {
    Declaration,
    Loop,
}

/// What is asked at a node, beside the meaning of its name and how it is used.
#[derive(Clone, Copy, PartialEq, Eq)]
pub enum Test {
    /// The type of the local is settled.
    IsInferred,
    /// The newtype is of its form, and its range has its default.
    IsRange,
    /// Parts fit or narrow to their places.
    PartsFit,
    /// So do right sides.
    SourcesFit,
    /// At each sign, which holds to the left: operands are of the types that it takes.
    Signs,
    /// At each sign, which holds to the right.
    RightSigns,
    /// The operand is a number.
    OperandIsNumber,
    /// The signs of a chain go one way.
    OneDirection,
    /// This part is a truth, told there.
    IsTruth(usize),
    /// The operand is a truth, told of the whole.
    OperandIsTruth,
    /// As many arguments as parameters.
    ArgumentCount,
    /// It is called where it may be called.
    IsCalled,
    /// A call, by what is no name.
    IsNoCallee,
    /// The parts from this one on are of one type.
    BranchesAlike(usize),
    /// The first part goes to the type that is the second, from there to the next.
    IsCast,
    /// As many values as places.
    IsEnough,
    /// No values, or all results.
    IsReturn,
    /// A loop is around.
    IsInLoop,
    /// The clause belongs there.
    BelongsTo(Owner),
    /// It has a measure.
    IsMeasured,
    /// Lines are related by what their operators take, and operators mix with one other.
    Steps,
    /// Operands can be printed.
    IsPrinted,
}

/// What a construct is in the program.
#[derive(Clone, Copy, PartialEq, Eq)]
pub enum Means {
    Nothing,
    // ---- parts of declarations and statements
    Precondition,
    Postcondition,
    Invariant,
    Measure,
    Local,
    Arm,
    Step,
    // ---- expressions
    Number,
    Character,
    Truth,
    Text,
    Variable,
    /// Its last part.
    Inside,
    Negation,
    Denial,
    Arithmetic,
    Comparison,
    Equivalence,
    Conjunction,
    Disjunction,
    Implication,
    Explication,
    Conversion,
    Call,
    Choice,
    Binding,
    // ---- statements
    Sequence,
    Declaration,
    Assignment,
    Effect,
    Branch,
    Loop,
    Return,
    Break,
    Assertion,
    Output,
    Calculation,
}

/// What a file declares.
#[derive(Clone, Copy, PartialEq, Eq)]
pub enum Declares {
    Nothing,
    Newtype,
    Function,
    Predicate,
    Method,
    Lemma,
}

/// What the folds read of a construct; its list of tests is of a kind.
#[derive(Clone, Copy)]
pub struct Form<T> {
    pub declares: Declares,
    /// Names that are declared inside are unknown behind it.
    pub is_scope: bool,
    /// They are known only behind it.
    pub hides: bool,
    pub within: Within,
    pub naming: Naming,
    pub uses: Uses,
    pub demand: Demand,
    pub places: Places,
    pub own: Own,
    pub head: Head,
    /// It may be assigned.
    pub is_place: bool,
    /// It is a call.
    pub is_call: bool,
    pub tests: T,
    pub means: Means,
}

pub type Row = Form<&'static [Test]>;

const PLAIN: Row = Form {
    declares: Declares::Nothing,
    is_scope: false,
    hides: false,
    within: Within::Same,
    naming: Naming::Nameless,
    uses: Uses::Values,
    demand: Demand::Nothing,
    places: Places::Nowhere,
    own: Own::Untyped,
    head: Head::First,
    is_place: false,
    is_call: false,
    tests: &[],
    means: Means::Nothing,
};

const CALLABLE: Row = Form {
    declares: Declares::Method,
    is_scope: true,
    ..PLAIN
};

const CONTRACT: Row = Form {
    means: Means::Precondition,
    tests: &[Test::BelongsTo(Owner::Declaration), Test::IsTruth(0)],
    ..PLAIN
};

const OPERATORS: Row = Form {
    demand: Demand::Neighbours,
    head: Head::LastSign,
    tests: &[Test::Signs],
    ..PLAIN
};

const LOGIC: Row = Form {
    own: Own::Truth,
    head: Head::LastSign,
    tests: &[Test::Signs],
    ..PLAIN
};

const ARITHMETIC: Row = Form {
    own: Own::Arithmetic,
    means: Means::Arithmetic,
    ..OPERATORS
};

/// The rows, in the order of the labels.
const FORMS: &[Row] = &[
    // File
    PLAIN,
    // Newtype
    Form {
        declares: Declares::Newtype,
        is_scope: true,
        within: Within::Names,
        tests: &[Test::IsRange],
        ..PLAIN
    },
    // Binder
    Form {
        naming: Naming::Declared,
        ..PLAIN
    },
    // Witness
    Form {
        within: Within::Alone,
        ..PLAIN
    },
    // Method
    CALLABLE,
    // Lemma
    Form {
        declares: Declares::Lemma,
        ..CALLABLE
    },
    // Function
    Form {
        declares: Declares::Function,
        demand: Demand::Given,
        places: Places::Body,
        tests: &[Test::PartsFit],
        ..CALLABLE
    },
    // Predicate
    Form {
        declares: Declares::Predicate,
        demand: Demand::Given,
        places: Places::Body,
        tests: &[Test::PartsFit],
        ..CALLABLE
    },
    // Result
    Form {
        within: Within::Declaring(Role::Result),
        naming: Naming::Declared,
        own: Own::Passed(0),
        ..PLAIN
    },
    // Parameters
    Form {
        within: Within::Declaring(Role::Parameter),
        ..PLAIN
    },
    // Parameter
    Form {
        naming: Naming::Declared,
        own: Own::Passed(0),
        ..PLAIN
    },
    // Results
    Form {
        within: Within::Declaring(Role::Result),
        ..PLAIN
    },
    // Requires
    CONTRACT,
    // Ensures
    Form {
        within: Within::Promise,
        means: Means::Postcondition,
        ..CONTRACT
    },
    // Invariant
    Form {
        tests: &[Test::BelongsTo(Owner::Loop), Test::IsTruth(0)],
        means: Means::Invariant,
        ..PLAIN
    },
    // Decreases
    Form {
        means: Means::Measure,
        ..PLAIN
    },
    // BasicType
    Form {
        naming: Naming::Type,
        own: Own::Type,
        ..PLAIN
    },
    // NamedType
    Form {
        naming: Naming::Type,
        own: Own::Type,
        ..PLAIN
    },
    // Block
    Form {
        is_scope: true,
        within: Within::Body,
        means: Means::Sequence,
        ..PLAIN
    },
    // Var
    Form {
        hides: true,
        uses: Uses::Initial,
        demand: Demand::Given,
        places: Places::Targets,
        own: Own::Local,
        tests: &[Test::SourcesFit, Test::IsEnough],
        means: Means::Declaration,
        ..PLAIN
    },
    // Local
    Form {
        naming: Naming::Declared,
        own: Own::Passed(0),
        tests: &[Test::IsInferred],
        means: Means::Local,
        ..PLAIN
    },
    // ExpressionStatement
    Form {
        uses: Uses::Whole,
        means: Means::Effect,
        ..PLAIN
    },
    // Assign
    Form {
        uses: Uses::Assigned,
        demand: Demand::Given,
        places: Places::Targets,
        tests: &[Test::SourcesFit, Test::IsEnough],
        means: Means::Assignment,
        ..PLAIN
    },
    // If
    Form {
        means: Means::Branch,
        ..PLAIN
    },
    // Guarded
    Form {
        tests: &[Test::IsTruth(0)],
        means: Means::Arm,
        ..PLAIN
    },
    // While
    Form {
        within: Within::Loop,
        tests: &[Test::IsTruth(0), Test::IsMeasured],
        means: Means::Loop,
        ..PLAIN
    },
    // Return
    Form {
        uses: Uses::Returned,
        demand: Demand::Given,
        places: Places::Results,
        tests: &[Test::SourcesFit, Test::IsReturn],
        means: Means::Return,
        ..PLAIN
    },
    // Break
    Form {
        tests: &[Test::IsInLoop],
        means: Means::Break,
        ..PLAIN
    },
    // Assert
    Form {
        within: Within::Proof,
        tests: &[Test::IsTruth(0)],
        means: Means::Assertion,
        ..PLAIN
    },
    // Print
    Form {
        tests: &[Test::IsPrinted],
        means: Means::Output,
        ..PLAIN
    },
    // Text
    Form {
        own: Own::Text,
        means: Means::Text,
        ..PLAIN
    },
    // Calc
    Form {
        demand: Demand::Neighbours,
        tests: &[Test::Steps],
        means: Means::Calculation,
        ..PLAIN
    },
    // Line
    Form {
        within: Within::Proof,
        demand: Demand::Passed(0),
        own: Own::Passed(0),
        means: Means::Step,
        ..PLAIN
    },
    // Equivalence
    Form {
        means: Means::Equivalence,
        ..LOGIC
    },
    // Implication
    Form {
        head: Head::FirstSign,
        tests: &[Test::RightSigns],
        means: Means::Implication,
        ..LOGIC
    },
    // Explication
    Form {
        means: Means::Explication,
        ..LOGIC
    },
    // Conjunction
    Form {
        means: Means::Conjunction,
        ..LOGIC
    },
    // Disjunction
    Form {
        means: Means::Disjunction,
        ..LOGIC
    },
    // Chain
    Form {
        own: Own::Truth,
        head: Head::FirstSign,
        tests: &[Test::Signs, Test::OneDirection],
        means: Means::Comparison,
        ..OPERATORS
    },
    // Sum
    ARITHMETIC,
    // Product
    ARITHMETIC,
    // As
    Form {
        own: Own::Last,
        tests: &[Test::IsCast],
        means: Means::Conversion,
        ..PLAIN
    },
    // Negate
    Form {
        demand: Demand::Neighbours,
        own: Own::Minus,
        tests: &[Test::OperandIsNumber],
        means: Means::Negation,
        ..PLAIN
    },
    // Not
    Form {
        own: Own::Truth,
        tests: &[Test::OperandIsTruth],
        means: Means::Denial,
        ..PLAIN
    },
    // Apply
    Form {
        is_call: true,
        tests: &[Test::IsNoCallee],
        ..PLAIN
    },
    // Name
    Form {
        naming: Naming::Value,
        own: Own::Named,
        is_place: true,
        tests: &[Test::IsCalled],
        means: Means::Variable,
        ..PLAIN
    },
    // Call
    Form {
        naming: Naming::Value,
        demand: Demand::Given,
        places: Places::Parameters,
        own: Own::Named,
        is_call: true,
        tests: &[Test::PartsFit, Test::ArgumentCount, Test::IsCalled],
        means: Means::Call,
        ..PLAIN
    },
    // Number
    Form {
        own: Own::Digits,
        means: Means::Number,
        ..PLAIN
    },
    // Character
    Form {
        own: Own::Character,
        means: Means::Character,
        ..PLAIN
    },
    // Truth
    Form {
        own: Own::Truth,
        means: Means::Truth,
        ..PLAIN
    },
    // Parentheses
    Form {
        demand: Demand::Passed(0),
        own: Own::Passed(0),
        means: Means::Inside,
        ..PLAIN
    },
    // Conditional
    Form {
        demand: Demand::Branches(1),
        own: Own::Branches(1),
        tests: &[Test::IsTruth(0), Test::BranchesAlike(1)],
        means: Means::Choice,
        ..PLAIN
    },
    // Let
    Form {
        is_scope: true,
        within: Within::Declaring(Role::Bound),
        demand: Demand::Passed(1),
        own: Own::Passed(1),
        means: Means::Binding,
        ..PLAIN
    },
    // Wildcard
    PLAIN,
    // NamePattern
    PLAIN,
    // ConstructorPattern
    PLAIN,
];

/// What has no row.
pub const NOTHING: Row = PLAIN;

/// The row of a label.
#[tactic(auto, unfolding(crate::specs::Form::form_of, crate::specs::Form::forms))]
pub fn form_of(label: Label) -> Row
    ensures { row_of result ≡ pure.form_of label }
{
    match FORMS.get(label as usize) {
        Some(form) => *form,
        None => NOTHING,
    }
}
