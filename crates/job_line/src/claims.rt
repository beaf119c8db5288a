// What printed makes are, on a contract.
ghost use Rattle.job_line.specs.MakeTexts.{MakesPrintAsWritten};

/// Does nothing: its contract is that a make is printed as a word of a line that writes it.
pub fn makes_print_as_written()
    ensures { MakesPrintAsWritten }
{}
