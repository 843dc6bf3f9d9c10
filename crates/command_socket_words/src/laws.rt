ghost use Rattle.std.specs.Prelude.{◌≡◌, ◌≢◌, ◌≤◌, ℕ, List, [], ◌∷◌, ◌++◌, true, codes, map, length, Ok, Err};
ghost use Rattle.std.specs.List.{list_all};
ghost use Rattle.command_socket_words.specs.declared.command.Command.{Command};
ghost use Rattle.command_socket_words.specs.declared.socket_command.SocketCommand.{SocketCommand};
ghost use Rattle.command_socket_words.specs.declared.fault.CommandFault.{CommandFault};
ghost use Rattle.command_socket_words.specs.declared.fault.CommandFault.TheVariants.{UnknownCommand, MissingWord, BadNumber};
ghost use Rattle.command_socket_words.specs.declared.line.TheConstants.{LONGEST_LINE};
ghost use Rattle.command_socket_words.specs.Commands.{command_of, commands_of};
ghost use Rattle.command_socket_words.specs.Lines.{are_words, line_of};
ghost use Rattle.command_socket_words.specs.Meanings.{IsCommand, Says};
ghost use Rattle.command_socket_words.specs.SocketCommands.{socket_command_of};
ghost use Rattle.command_socket_words.specs.SocketMeanings.{IsSocketCommand, SocketSays};
ghost use Rattle.command_socket_words.specs.Values.{number_in};
ghost use Rattle.command_socket_words.specs.Words.{Word};

/// A command is read exactly where its words say it: `Says` is the table of commands.
pub fn words_say_a_command()
    ensures found { (words : List Word) (command : Command) → command_of words ≡ Ok command
        → IsCommand command × Says words command }
    ensures only { (words : List Word) (command : Command) → IsCommand command
        → Says words command → command_of words ≡ Ok command }
{}

/// A command of the command socket is read where its words say it: `SocketSays` is the table of commands.
pub fn words_say_a_socket_command()
    ensures { (words : List Word) (command : SocketCommand) → IsSocketCommand command
        → SocketSays words command → socket_command_of words ≡ Ok command }
{}

/// The fault that is reported is the first one from the left.
pub fn the_first_fault_is_told()
    // A fault stands, whatever words follow.
    ensures stays { (words more : List Word) (fault : CommandFault) → fault ≢ MissingWord
        → command_of words ≡ Err fault → command_of (words ++ more) ≡ Err fault }
    // A word is missing only where other words make a command of it.
    ensures missing { (words : List Word) → command_of words ≡ Err MissingWord
        → (more : List Word) × (command : Command) × (command_of (words ++ more) ≡ Ok command) }
    // After a whole command each word is one too many.
    ensures ends { (words : List Word) (word : Word) (more : List Word) (command : Command)
        → command_of words ≡ Ok command → command_of (words ++ word ∷ more) ≡ Err UnknownCommand }
    // A number is reported as bad only where that word alone is wrong: with 0 in its place the words up to it are a
    // command.
    ensures number { (words : List Word) → command_of words ≡ Err BadNumber
        → (front more : List Word) × (bad : Word) × (command : Command)
        × (words ≡ front ++ bad ∷ more) × (number_in bad ≡ Err BadNumber)
        × (command_of (front ++ codes "0" ∷ []) ≡ Ok command) }
{}

/// Commands whose words are in a line, with spaces and semicolons between them, are each read by their words.
pub fn a_line_says_its_commands()
    ensures { (commands : List (List Word)) → list_all are_words commands ≡ true
        → length (line_of commands) ≤ LONGEST_LINE
        → commands_of (line_of commands) ≡ map command_of commands }
{}
