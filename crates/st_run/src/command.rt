//! The words of the command line.
ghost use Rattle.std.specs.Prelude.{◌≡◌, bytes_eq, map};
ghost use Rattle.std.specs.String.{string_bytes};
ghost use Rattle.st_run.specs.Command.{form_named};

use st_report::Form;

/// The form of report that the words name, where they are a command.
pub fn form_named(words: &[String]) -> Option<Form>
    ensures { result ≡ form_named (map string_bytes words.now) }
{
    match words {
        [command] => is(command, "replay").then_some(Form::Answers),
        [command, option] => {
            (is(command, "replay") && is(option, "--trace")).then_some(Form::Trace)
        }
        _ => None,
    }
}

fn is(word: &String, text: &str) -> bool
    ensures { result ≡ bytes_eq (string_bytes word.now) text.now }
{
    word.as_str() == text
}
