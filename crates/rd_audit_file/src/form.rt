//! The words with which lines begin.

ghost use Rattle.std.specs.Prelude.{◌≡◌};
ghost use Rattle.rd_audit_file.specs.Taken.{all_forms, as_taken, form_among, form_word};

use crate::fields::after;

/// What a line says.
#[derive(Clone, Copy)]
pub enum Form {
    Device,
    Came,
    Ran,
    Cancelled,
    Sent,
    Cut,
}

const FORMS: [Form; 6] = [
    Form::Device,
    Form::Came,
    Form::Ran,
    Form::Cancelled,
    Form::Sent,
    Form::Cut,
];

/// The word of a line, and the space after it.
fn word(form: Form) -> &'static [u8]
    ensures { result.now ≡ form_word form }
{
    match form {
        Form::Device => b"device ",
        Form::Came => b"came ",
        Form::Ran => b"ran ",
        Form::Cancelled => b"cancelled ",
        Form::Sent => b"sent ",
        Form::Cut => b"cut ",
    }
}

/// The form of the line with which a text begins, and what comes after its word.
pub fn take_form(text: &[u8]) -> Option<(Form, &[u8])>
    ensures { as_taken result ≡ form_among all_forms text.now }
{
    for form in FORMS {
        if let Some(rest) = after(text, word(form)) {
            return Some((form, rest));
        }
    }
    None
}
