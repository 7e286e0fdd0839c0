//! Methods and programs.

ghost use Rattle.std.specs.Prelude.{◌≡◌, true};
ghost use Rattle.df_nplain.specs.MethodView.{plain_with};
ghost use Rattle.df_nplain.specs.Bounded.{is_bounded_program};
ghost use Rattle.df_nplain.specs.Counts.{has_counts};

use crate::kind::Kind;
use crate::stmt::Stmt;

/// A method. The numbers of its locals are those of its parameters, then of its results, then of the
/// variables in the order of the text.
#[derive(Drop)]
pub struct Method {
    /// Its qualified name.
    pub text: String,
    pub parameters: Vec<Kind>,
    pub results: Vec<Kind>,
    pub body: Vec<Stmt>,
}

/// A program: its methods in the order of the source. Each number at a place, and each result of arithmetic,
/// has an interval. Methods are called that are there, on as many arguments as they have parameters, and as many
/// values are given as there are places.
#[derive(Drop)]
pub struct Plain {
    pub methods: Vec<Method>,
    ghost is_bounded: { is_bounded_program (plain_with methods.items) ≡ true },
    ghost is_counted: { has_counts (plain_with methods.items) ≡ true },
}

impl Plain {
    /// The program of these methods.
    pub fn new(methods: Vec<Method>) -> Plain
        requires bounded { is_bounded_program (plain_with methods.items) ≡ true }
        requires counted { has_counts (plain_with methods.items) ≡ true }
        ensures { result.methods ≡ methods }
    {
        Plain { methods }
    }
}
