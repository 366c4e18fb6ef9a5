//! What follows from the definitions of `specs/` alone, said of every declaration and every graph.

ghost use Rattle.std.specs.Prelude.{List, ℕ};
ghost use Rattle.dr_graph.specs.Meaning.Declaration.{Declaration};
ghost use Rattle.dr_graph.specs.Meaning.Graph.{IsGraph, IsLayered, FinalsGate, LeastGates, LeastRises, HasOneGraph};
ghost use Rattle.dr_graph.specs.Meaning.Placing.{FindsGraph};

/// The law that gating rests on: where no edge raises the counts, each handler has a final handler whose count is at
/// most its own, and so the finals' least count is at most every handler's. This is so of the handlers that are left,
/// whichever are gone; and where more go and one is left, the least count does not fall.
pub fn finals_gate()
    // Each handler that is left has a final one, of those left, whose count is at most its own.
    ensures each { (graph : List (List ℕ)) → IsLayered graph → FinalsGate graph }
    // The finals' least count is at most the count of each handler that is left.
    ensures least { (graph : List (List ℕ)) → IsGraph graph → LeastGates graph }
    // Where more handlers go and one is left, the finals' least count does not fall.
    ensures rises { (graph : List (List ℕ)) → IsGraph graph → LeastRises graph }
{}

/// A declaration says which graph is built of it.
pub fn one_graph()
    ensures { (d : Declaration) → HasOneGraph d }
{}

/// You find the graph of a declaration by placing the handlers one after another, each time the first declared one that is
/// ready; if some are left and none is ready, there is a cycle.
pub fn placed_graph()
    ensures { (d : Declaration) → FindsGraph d }
{}
