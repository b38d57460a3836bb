ghost use Rattle.rules.specs.Cases.{MarkedCases};

// Stands for the marked cases of the rules: its contract is their table.
pub fn marked_cases()
    ensures { MarkedCases }
{}
