// Figures that the definitions of all layers give, in one statement.
#![tactic(auto)]

ghost use Rattle.figures.specs.Marked.{Marked};

// That the definitions give the marked figures; it does nothing else.
pub fn marked_figures()
    ensures { Marked }
{}
