// Laws of the words of the commands.
ghost use Rattle.std.specs.Prelude.{◌≡◌, ℕ, List};
ghost use Rattle.command_words.specs.Words.{IsForm};
ghost use Rattle.command_words.specs.declared.words.Command.{Command};

/// Words are the form of one command at most.
pub fn forms_are_apart()
    ensures { (words : List (List ℕ)) (one other : Command) → IsForm words one → IsForm words other → one ≡ other }
{}
