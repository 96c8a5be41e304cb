//! Laws of the grammar.
ghost use Rattle.std.specs.Prelude.{◌≡◌, ℕ, List, false};
ghost use Rattle.program_script.specs.declared.command.Command.{Command};
ghost use Rattle.program_script.specs.declared.shell_line.ShellLine.{ShellLine};
ghost use Rattle.program_script.specs.Grammar.{IsLineOf, CanBeGiven, is_left_out};
ghost use Rattle.program_script.specs.Shell.{IsShellLineOf};

/// No line is two commands.
pub fn one_command()
    ensures { (line : List ℕ) (a b : Command) → IsLineOf line a → IsLineOf line b → a ≡ b }
{}

/// No line that is left out is a command.
pub fn no_command_left_out()
    ensures { (line : List ℕ) (command : Command) → IsLineOf line command → is_left_out line ≡ false }
{}

/// Each command that a script can give has a line.
pub fn each_has_a_line()
    ensures { (command : Command) → CanBeGiven command → (line : List ℕ) × IsLineOf line command }
{}

/// No line is two lines of those that are served beside the commands.
pub fn one_shell_line()
    ensures { (line : List ℕ) (a b : ShellLine) → IsShellLineOf line a → IsShellLineOf line b → a ≡ b }
{}

/// No line that is served beside the commands is one of them.
pub fn no_command_of_the_shell()
    ensures { (line : List ℕ) (shell_line : ShellLine) (command : Command) → IsShellLineOf line shell_line
        → ¬ IsLineOf line command }
{}
