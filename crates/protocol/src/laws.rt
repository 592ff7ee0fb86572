// Laws of the script language. Each function stands for the theorem in its contract, and does nothing.
ghost use Rattle.protocol.specs.Laws.{ALineHasAtMostOneCommand, TheExampleIsWrittenSo};

pub fn a_line_has_at_most_one_command()
    ensures { ALineHasAtMostOneCommand }
{}

pub fn the_example_is_written_so()
    ensures { TheExampleIsWrittenSo }
{}
