//! Laws of nodes and their trees, and of terms and types.

ghost use Rattle.df_nenc.specs.Laws.{MadeNodesAreTrees, TreesStay, SortsAreThoseOfTrees, OneNodeForATree, TermsHaveSortsOfTypes};

/// A node that is made stands for its operation on the trees of its parts.
pub fn made_nodes_are_trees()
    ensures { MadeNodesAreTrees }
{}

/// Where a table grows, each number keeps its tree.
pub fn trees_stay()
    ensures { TreesStay }
{}

/// A node has the sort of its tree.
pub fn sorts_are_those_of_trees()
    ensures { SortsAreThoseOfTrees }
{}

/// Different nodes of a table stand for different trees.
pub fn one_node_for_a_tree()
    ensures { OneNodeForATree }
{}

/// The term of a well-typed expression has the sort of its type.
pub fn terms_have_sorts_of_types()
    ensures { TermsHaveSortsOfTypes }
{}
