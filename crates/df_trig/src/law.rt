//! Laws of rounds of instances.

ghost use Rattle.std.specs.Prelude.{◌≡◌, ℕ, List, Some};
ghost use Rattle.df_form.specs.Log.{Schema};
ghost use Rattle.df_form.specs.Node.{Node};
ghost use Rattle.df_form.specs.Sequent.{Sequent, IsSequent};
ghost use Rattle.df_form.specs.World.{World};
ghost use Rattle.df_axiom.specs.Instance.{Added};
ghost use Rattle.df_axiom.specs.Line.{instance_line};
ghost use Rattle.df_clause.specs.Among.{Among};
ghost use Rattle.df_clause.specs.declared.ground.Ground.{Ground};
ghost use Rattle.df_clause.specs.GroundView.{IsGround};
ghost use Rattle.df_trig.specs.Instances.{IsInstances};
ghost use Rattle.df_trig.specs.Matches.{round_lines};

/// However many rounds of instances are in it, a ground set is one: its lines are those of a log, and it
/// has the hypotheses, the negated goal and all that connectives mean.
pub fn instances_are_ground()
    ensures { (s : Sequent) (rounds : ℕ) (g : Ground) → IsSequent s → IsInstances s rounds g → IsGround s g }
{}

/// Wherever a schema has a clause for terms that stand, its line is one of those that a round goes through:
/// no pattern is left out, and no match of one.
pub fn no_match_is_left_out()
    ensures { (world : World) (nodes : List Node) (schema clause : ℕ) (terms : List ℕ) (added : Added) → instance_line world nodes schema clause terms ≡ Some added → Among (round_lines world nodes) (Schema schema clause terms) }
{}
