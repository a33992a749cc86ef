ghost use Rattle.zr_words.specs.Commands.{AskForOneCommand, HaveOneForm};
ghost use Rattle.zr_words.specs.Matches.{IsReadByClap};

/// The words that `clap` takes are those that have the form of a command line.
pub fn words_that_clap_takes()
    ensures { IsReadByClap }
{}

/// Words have the form of a command line in one way at most, and ask for one command at most.
pub fn law_of_words()
    ensures form { HaveOneForm }
    ensures command { AskForOneCommand }
{}
