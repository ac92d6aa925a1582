//! Laws of sharing that no single call can carry. Each function stands for a theorem, which its contract names, and
//! does nothing.
ghost use Rattle.sharing.specs.Laws.{ThreeLevelsAddToTheAmount, Figures};

pub fn three_levels_add_to_the_amount()
    ensures { ThreeLevelsAddToTheAmount }
{}

pub fn figures()
    ensures { Figures }
{}
