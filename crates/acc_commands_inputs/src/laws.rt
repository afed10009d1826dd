//! What holds of all commands.
ghost use Rattle.acc_commands_inputs.specs.Verbs.{EachHasVerb, EachHasHelp};

/// Each command has a verb: with the names of its files behind it, and the numbers that it has, it asks for the command.
pub fn commands_have_verbs()
    ensures { EachHasVerb }
{}

/// Each command has a line of the help, which begins with its verb.
pub fn commands_have_help()
    ensures { EachHasHelp }
{}
