//! Laws of what a run means, over all commands. None of them does anything when it runs.

ghost use Rattle.std.specs.Prelude.{◌≡◌, ℕ, List};
ghost use Rattle.clap.specs.declared.error.kind.ErrorKind.{ErrorKind};
ghost use Rattle.kb_io.specs.Outside.{Outside};
ghost use Rattle.kb_task.specs.Refusals.{IsLoadFault, IsRefusalOrMemory};
ghost use Rattle.kb_task.specs.Runs.{ReadsSame, HasSameEffect};
ghost use Rattle.kb_task.specs.Statuses.{IsYes, IsFaultless};
ghost use Rattle.kb_task.specs.declared.status.FileFault.{FileFault};
ghost use Rattle.kb_task.specs.declared.status.Refusal.TheVariants.{File};
ghost use Rattle.kb_task.specs.declared.status.Status.{Status};
ghost use Rattle.kb_task.specs.declared.status.Status.TheVariants.{Refused};
ghost use Rattle.kb_cli.specs.CommandLine.{IsLine, IsNoLine};
ghost use Rattle.kb_cli.specs.Commands.{command_promise};
ghost use Rattle.kb_cli.specs.Headline.{Headline};
ghost use Rattle.kb_cli.specs.declared.command.Command.{Command};

use kb_task::files_are_refused_for_one_reason;

/// No arguments are both a line of the program and none.
pub fn no_line_is_faulty()
    ensures { (arguments : List (List ℕ)) (command : Command) (kind : ErrorKind)
        → IsLine arguments command → ¬ IsNoLine arguments kind }
{}

/// Arguments are the line of one command at most.
pub fn arguments_are_one_command()
    ensures { (arguments : List (List ℕ)) (one other : Command)
        → IsLine arguments one → IsLine arguments other → one ≡ other }
{}

/// Where the arguments are the line of a command, nothing that it reads is refused and no device failed, the run has
/// one of the command's answers: yes, for some no or a limit too, or want of memory.
pub fn where_nothing_is_refused_there_is_an_answer()
    ensures { (arguments : List (List ℕ)) (command : Command) (before after : Outside)
        (status : Status)
        → IsLine arguments command
        → Headline arguments before after status
        → (command_promise command).is_unrefused before
        → IsFaultless status
        → (command_promise command).answers status }
{}

/// A file that is refused for a fault that it has as it is loaded is the first that has one, of those that the command
/// reads in their order.
pub fn a_refused_file_has_the_first_fault()
    ensures { (arguments : List (List ℕ)) (command : Command) (before after : Outside)
        (name : List ℕ) (fault : FileFault)
        → IsLine arguments command
        → Headline arguments before after (Refused (File name fault))
        → IsLoadFault fault
        → (command_promise command).refuses before name fault }
{}

/// And where there is such a file, the run ends with exactly that refusal: the file is named, with the first fault
/// that it has; or memory ran out, or a device failed.
pub fn a_file_with_a_fault_is_refused()
    ensures { (arguments : List (List ℕ)) (command : Command) (before after : Outside)
        (status : Status) (name : List ℕ) (fault : FileFault)
        → IsLine arguments command
        → Headline arguments before after status
        → (command_promise command).refuses before name fault
        → IsFaultless status
        → IsRefusalOrMemory name fault status }
{
    files_are_refused_for_one_reason();
}

/// The answer depends only on the arguments and on the files that the command reads: two runs that end with statuses
/// which those files settle have one status.
pub fn one_answer_by_the_files()
    ensures { (arguments : List (List ℕ)) (command : Command)
        (before after other_before other_after : Outside) (status other : Status)
        → IsLine arguments command
        → Headline arguments before after status
        → Headline arguments other_before other_after other
        → ReadsSame (command_promise command).reads before other_before
        → (command_promise command).settles status
        → (command_promise command).settles other
        → status ≡ other }
{}

/// What status 0 writes, and stores under the names that it settles, is one function of the command without its
/// options, of the files that it reads and of the input: no option changes a byte of it.
pub fn status_0_is_one_function()
    ensures { (arguments other_arguments : List (List ℕ)) (command other_command : Command)
        (before after other_before other_after : Outside) (status other : Status)
        → IsLine arguments command
        → IsLine other_arguments other_command
        → (command_promise command).differs_in_options other_command
        → Headline arguments before after status
        → Headline other_arguments other_before other_after other
        → IsYes status
        → IsYes other
        → ReadsSame (command_promise command).reads before other_before
        → before.input.left ≡ other_before.input.left
        → HasSameEffect (command_promise command).settled_stores before after other_before other_after }
{}
