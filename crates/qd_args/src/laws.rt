//! Laws of words. Each is the contract of a function that does nothing.
ghost use Rattle.qd_args.specs.Words.{AskForOne};

/// Law: no words ask for two commands.
pub fn words_ask_for_one()
    ensures law { AskForOne }
{}
