// The theorem about what is printed.
ghost use Rattle.report.specs.Lines.{OneReport};

// Carries the theorem that one thing is printed of a file; it answers nothing of use.
pub fn lines_stand()
    ensures { OneReport }
{}
