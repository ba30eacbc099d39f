ghost use Rattle.std.specs.Prelude.{◌≡◌, map};
ghost use Rattle.std.specs.Str.{str_eq_ignore_ascii_case};
ghost use Rattle.command_table.specs.Lookup.{found_one, found_two, one_word_form, two_word_form, form_of};

use crate::commands::{Form, ONE_WORD_COMMANDS, TWO_WORD_COMMANDS};
use crate::routing::SlotAddr;
use containers::Bytes;

/// Whether two names are one but for ASCII case.
pub fn is_same_name(a: &[u8], b: &[u8]) -> bool
    ensures { result ≡ str_eq_ignore_ascii_case a.now b.now }
{
    a.eq_ignore_ascii_case(b)
}

/// The form of the first row with this name.
fn found_one(mut table: &[(&[u8], Form)], name: &[u8]) -> Option<Form>
    ensures { result ≡ found_one (map (λ c. (c.0.now, c.1)) table.entry.now) name.now }
{
    while let [row, rest @ ..] = table {
        if is_same_name(row.0, name) {
            return Some(row.1);
        }
        table = rest;
    }
    None
}

/// The form of the first row with these two words.
fn found_two(mut table: &[(&[u8], &[u8], Form)], name: &[u8], next: &[u8]) -> Option<Form>
    ensures { result
        ≡ found_two (map (λ c. (c.0.now, c.1.now, c.2)) table.entry.now) name.now next.now }
{
    while let [row, rest @ ..] = table {
        if is_same_name(row.0, name) && is_same_name(row.1, next) {
            return Some(row.2);
        }
        table = rest;
    }
    None
}

/// The form of a command, by its name alone.
#[tactic(auto, using(crate::proofs::Rows::by_one_word))]
fn one_word_form(name: &[u8]) -> Form
    ensures { result ≡ one_word_form name.now }
{
    found_one(&ONE_WORD_COMMANDS, name).unwrap_or(Form::FirstKey(SlotAddr::Master))
}

/// The form of a command, by two words, if they are such a command.
#[tactic(auto, using(crate::proofs::Rows::by_two_words))]
fn two_word_form(name: &[u8], next: &[u8]) -> Option<Form>
    ensures { result ≡ two_word_form name.now next.now }
{
    found_two(&TWO_WORD_COMMANDS, name, next)
}

/// The form of a command, by its name and the arguments after it.
pub fn form_of(name: &[u8], args: &[Bytes]) -> Form
    ensures { result ≡ form_of name.now args.now }
{
    let [next, ..] = args else {
        return one_word_form(name);
    };
    match two_word_form(name, next.as_slice()) {
        Some(form) => form,
        None => one_word_form(name),
    }
}
