//! The schemas of numbers and characters, a row for each clause.

ghost use Rattle.std.specs.Prelude.{◌≡◌, map};
ghost use Rattle.df_axiom.specs.Template.{entry_of};
ghost use Rattle.df_axiom.specs.Schemas.{written};

use crate::templates::{Need, Piece, Row, Source, Test};
use df_form::{Lit, Op, Pair, Payload, Symbol};

/// A clause of a schema whose lists are constants.
pub type SchemaRow = Row<&'static [Piece], &'static [Pair], &'static [Need], &'static [Lit]>;

const DIV: Op = Op::Of(Symbol::Div, Payload::Nothing);

const MOD: Op = Op::Of(Symbol::Mod, Payload::Nothing);

const CODE: Op = Op::Of(Symbol::Code, Payload::Nothing);

const CHR: Op = Op::Of(Symbol::Chr, Payload::Nothing);

/// A named term, which is to be of the operation.
macro_rules! named {
    ($term:expr, $op:expr) => {
        Piece {
            source: Source::Named($term),
            test: Test::Of($op),
        }
    };
}

/// A letter: a part of the node at a place.
macro_rules! letter {
    ($place:expr, $part:expr) => {
        Piece {
            source: Source::Part($place, $part),
            test: Test::Any,
        }
    };
}

/// A part that is to be a literal number.
macro_rules! literal {
    ($place:expr, $part:expr) => {
        Piece {
            source: Source::Part($place, $part),
            test: Test::Literal,
        }
    };
}

/// A part that is to be of the operation.
macro_rules! inner {
    ($place:expr, $part:expr, $op:expr) => {
        Piece {
            source: Source::Part($place, $part),
            test: Test::Of($op),
        }
    };
}

/// An operation on x, which is place 0; x is 1.
macro_rules! of_one {
    ($op:expr) => {
        &[named!(0, $op), letter!(0, 0)]
    };
}

/// An operation on x and y, which is place 0; x is 1 and y 2.
macro_rules! of_two {
    ($op:expr) => {
        &[named!(0, $op), letter!(0, 0), letter!(0, 1)]
    };
}

/// The node of a place is true.
macro_rules! yes {
    ($place:expr) => {
        Lit {
            positive: true,
            node: $place,
        }
    };
}

/// The node of a place is false.
macro_rules! no {
    ($place:expr) => {
        Lit {
            positive: false,
            node: $place,
        }
    };
}

/// If y is not 0: x = y * div(x, y) + mod(x, y), found by the quotient.
pub const PARTS_OF_QUOTIENT: SchemaRow = Row {
    schema: 1,
    clause: 0,
    terms: 1,
    pieces: of_two!(DIV),
    same: &[],
    needed: &[
        Need::Number(0),
        Need::Two(Op::Equal, 2, 3),
        Need::Two(Op::Times, 2, 0),
        Need::Two(MOD, 1, 2),
        Need::Two(Op::Plus, 5, 6),
        Need::Two(Op::Equal, 1, 7),
    ],
    literals: &[yes!(4), yes!(8)],
};

/// The same, found by the remainder.
pub const PARTS_OF_REMAINDER: SchemaRow = Row {
    schema: 1,
    clause: 0,
    terms: 1,
    pieces: of_two!(MOD),
    same: &[],
    needed: &[
        Need::Number(0),
        Need::Two(Op::Equal, 2, 3),
        Need::Two(DIV, 1, 2),
        Need::Two(Op::Times, 2, 5),
        Need::Two(Op::Plus, 6, 0),
        Need::Two(Op::Equal, 1, 7),
    ],
    literals: &[yes!(4), yes!(8)],
};

/// If y is not 0: 0 <= mod(x, y).
pub const REMAINDER_AT_LEAST: SchemaRow = Row {
    schema: 2,
    clause: 0,
    terms: 1,
    pieces: of_two!(MOD),
    same: &[],
    needed: &[
        Need::Number(0),
        Need::Two(Op::Equal, 2, 3),
        Need::Two(Op::AtMost, 3, 0),
    ],
    literals: &[yes!(4), yes!(5)],
};

/// If 1 <= y: mod(x, y) + 1 <= y.
pub const REMAINDER_BELOW: SchemaRow = Row {
    schema: 3,
    clause: 0,
    terms: 1,
    pieces: of_two!(MOD),
    same: &[],
    needed: &[
        Need::Number(1),
        Need::Two(Op::AtMost, 3, 2),
        Need::Two(Op::Plus, 0, 3),
        Need::Two(Op::AtMost, 5, 2),
    ],
    literals: &[no!(4), yes!(6)],
};

/// If y <= -1: mod(x, y) + 1 <= -y.
pub const REMAINDER_BELOW_OPPOSITE: SchemaRow = Row {
    schema: 4,
    clause: 0,
    terms: 1,
    pieces: of_two!(MOD),
    same: &[],
    needed: &[
        Need::Number(-1),
        Need::Two(Op::AtMost, 2, 3),
        Need::Number(1),
        Need::Two(Op::Plus, 0, 5),
        Need::Two(Op::Times, 3, 2),
        Need::Two(Op::AtMost, 6, 7),
    ],
    literals: &[no!(4), yes!(8)],
};

/// x * y = y * x.
pub const FACTORS_CHANGE: SchemaRow = Row {
    schema: 5,
    clause: 0,
    terms: 1,
    pieces: of_two!(Op::Times),
    same: &[],
    needed: &[Need::Two(Op::Times, 2, 1), Need::Two(Op::Equal, 0, 3)],
    literals: &[yes!(4)],
};

/// (x * y) * z = x * (y * z).
pub const FACTORS_JOIN: SchemaRow = Row {
    schema: 6,
    clause: 0,
    terms: 1,
    pieces: &[
        named!(0, Op::Times),
        inner!(0, 0, Op::Times),
        letter!(1, 0),
        letter!(1, 1),
        letter!(0, 1),
    ],
    same: &[],
    needed: &[
        Need::Two(Op::Times, 3, 4),
        Need::Two(Op::Times, 2, 5),
        Need::Two(Op::Equal, 0, 6),
    ],
    literals: &[yes!(7)],
};

/// x * (y + z) = x * y + x * z.
pub const FACTOR_GOES_IN: SchemaRow = Row {
    schema: 7,
    clause: 0,
    terms: 1,
    pieces: &[
        named!(0, Op::Times),
        letter!(0, 0),
        inner!(0, 1, Op::Plus),
        letter!(2, 0),
        letter!(2, 1),
    ],
    same: &[],
    needed: &[
        Need::Two(Op::Times, 1, 3),
        Need::Two(Op::Times, 1, 4),
        Need::Two(Op::Plus, 5, 6),
        Need::Two(Op::Equal, 0, 7),
    ],
    literals: &[yes!(8)],
};

/// x * k = k * x, for a literal k.
pub const LITERAL_COMES_FIRST: SchemaRow = Row {
    schema: 8,
    clause: 0,
    terms: 1,
    pieces: &[named!(0, Op::Times), letter!(0, 0), literal!(0, 1)],
    same: &[],
    needed: &[Need::Two(Op::Times, 2, 1), Need::Two(Op::Equal, 0, 3)],
    literals: &[yes!(4)],
};

/// If 0 <= x and 0 <= y: 0 <= x * y.
pub const PRODUCT_AT_LEAST: SchemaRow = Row {
    schema: 9,
    clause: 0,
    terms: 1,
    pieces: of_two!(Op::Times),
    same: &[],
    needed: &[
        Need::Number(0),
        Need::Two(Op::AtMost, 3, 1),
        Need::Two(Op::AtMost, 3, 2),
        Need::Two(Op::AtMost, 3, 0),
    ],
    literals: &[no!(4), no!(5), yes!(6)],
};

/// If x <= y and 0 <= z: x * z <= y * z, for the two products.
pub const PRODUCTS_COMPARE: SchemaRow = Row {
    schema: 10,
    clause: 0,
    terms: 2,
    pieces: &[
        named!(0, Op::Times),
        letter!(0, 0),
        letter!(0, 1),
        named!(1, Op::Times),
        letter!(3, 0),
        letter!(3, 1),
    ],
    same: &[Pair { left: 2, right: 5 }],
    needed: &[
        Need::Two(Op::AtMost, 1, 4),
        Need::Number(0),
        Need::Two(Op::AtMost, 7, 2),
        Need::Two(Op::AtMost, 0, 3),
    ],
    literals: &[no!(6), no!(8), yes!(9)],
};

/// 0 <= code(c).
pub const CODE_AT_LEAST: SchemaRow = Row {
    schema: 109,
    clause: 0,
    terms: 1,
    pieces: of_one!(CODE),
    same: &[],
    needed: &[Need::Number(0), Need::Two(Op::AtMost, 2, 0)],
    literals: &[yes!(3)],
};

/// code(c) <= 127.
pub const CODE_AT_MOST: SchemaRow = Row {
    schema: 109,
    clause: 1,
    terms: 1,
    pieces: of_one!(CODE),
    same: &[],
    needed: &[Need::Number(127), Need::Two(Op::AtMost, 0, 2)],
    literals: &[yes!(3)],
};

/// chr(code(c)) = c.
pub const CHARACTER_OF_CODE: SchemaRow = Row {
    schema: 109,
    clause: 2,
    terms: 1,
    pieces: of_one!(CODE),
    same: &[],
    needed: &[Need::One(CHR, 0), Need::Two(Op::Equal, 2, 1)],
    literals: &[yes!(3)],
};

/// If 0 <= x and x <= 127: code(chr(x)) = x.
pub const CODE_OF_CHARACTER: SchemaRow = Row {
    schema: 110,
    clause: 0,
    terms: 1,
    pieces: of_one!(CHR),
    same: &[],
    needed: &[
        Need::Number(0),
        Need::Two(Op::AtMost, 2, 1),
        Need::Number(127),
        Need::Two(Op::AtMost, 1, 4),
        Need::One(CODE, 0),
        Need::Two(Op::Equal, 6, 1),
    ],
    literals: &[no!(3), no!(5), yes!(7)],
};

/// All of them.
const WRITTEN: &[SchemaRow] = &[
    PARTS_OF_QUOTIENT,
    PARTS_OF_REMAINDER,
    REMAINDER_AT_LEAST,
    REMAINDER_BELOW,
    REMAINDER_BELOW_OPPOSITE,
    FACTORS_CHANGE,
    FACTORS_JOIN,
    FACTOR_GOES_IN,
    LITERAL_COMES_FIRST,
    PRODUCT_AT_LEAST,
    PRODUCTS_COMPARE,
    CODE_AT_LEAST,
    CODE_AT_MOST,
    CHARACTER_OF_CODE,
    CODE_OF_CHARACTER,
];

/// The clauses of schemas, but for those of types.
#[tactic(auto, unfolding(crate::specs::Schemas::written))]
pub fn rows() -> &'static [SchemaRow]
    ensures { map entry_of result.now ≡ written }
{
    WRITTEN
}
