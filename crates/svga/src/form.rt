//! What the program is asked to do.
ghost use Rattle.std.specs.Prelude.{◌≡◌, ◌↔◌, Some, string_bytes, true};
ghost use Rattle.svga.specs.Forms.{AsksFor, every_form, plain_form, form_word};
ghost use Rattle.svga.specs.declared.form.Form.{Form};
ghost use Rattle.svga.specs.declared.form.Form.TheVariants.{Race};

/// A form of the program.
#[derive(Clone, Copy, Debug, PartialEq, Eq)]
pub enum Form {
    /// `words`: lists the commands in FIFO words.
    Words,
    /// `replay`: runs the words of a capture, and tells what they leave.
    Replay,
    /// `race`: does the acts of a script on a driver, beside a device, and tells what they mean.
    Race,
}

/// The form that the words after the program's name ask for, if it is one.
pub fn form_of(words: &[String]) -> Option<Form>
    ensures { (form : Form) → (result ≡ Some form) ↔ AsksFor every_form form words.now }
{
    match words {
        [word] => form_of_word(word),
        _ => None,
    }
}

/// Whether the words ask for a race.
pub fn asks_for_race(words: &[String]) -> bool
    ensures { (result ≡ true) ↔ AsksFor every_form Race words.now }
{
    match form_of(words) {
        Some(Form::Words) => false,
        Some(Form::Replay) => false,
        Some(Form::Race) => true,
        None => false,
    }
}

/// The same for the forms that wait for nobody.
pub fn plain_form_of(words: &[String]) -> Option<Form>
    ensures { (form : Form) → (result ≡ Some form) ↔ AsksFor plain_form form words.now }
{
    match form_of(words) {
        Some(Form::Words) => Some(Form::Words),
        Some(Form::Replay) => Some(Form::Replay),
        Some(Form::Race) => None,
        None => None,
    }
}

fn form_of_word(word: &String) -> Option<Form>
    ensures { (form : Form) → (result ≡ Some form) ↔ (string_bytes word.now ≡ form_word form) }
{
    match word.as_str() {
        "words" => Some(Form::Words),
        "replay" => Some(Form::Replay),
        "race" => Some(Form::Race),
        _ => None,
    }
}
