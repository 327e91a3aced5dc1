//! The words of a command line.

ghost use Rattle.std.specs.Prelude.{◌≡◌, ◌++◌, slice_get};
ghost use Rattle.std.specs.Option.{option_copied, option_map};
ghost use Rattle.std.specs.List.{after_first, before_first};
ghost use Rattle.std.specs.String.{string_bytes};
ghost use Rattle.nd_top.specs.Words.{asked, asked_as, dir_of, do_form, form_in, handle, is_dashes, is_option};
ghost use Rattle.nd_top.specs.Words.{labels_form, operands_form, run_form};

use cmd_words::read_number;

/// What the words of a run ask for.
#[derive(Clone, Copy, Debug)]
pub enum Request<'a> {
    /// `labels DIR HANDLE`: the labels of the module with this device handle are listed.
    Labels {
        dimm: u32,
    },
    /// `do DIR WORD...`: what one line says is done. Its words stand behind the first two of these.
    Line {
        front: &'a [String],
        back: &'a [String],
    },
    /// `run DIR`: what each line of the input says is done.
    Input,
}

/// What the words ask for, and `None` exactly where they are no form.
pub fn request_of<'a>(words: &'a [String]) -> Option<Request<'a>>
    ensures { option_map asked_as result ≡ asked words.now }
{
    let (front, back) = around_dashes(words);
    form_in(front, back)
}

/// The folder that the words name: the second of them without a first `--`, or `.` where there is none.
pub fn dir(words: &[String]) -> &str
    ensures { result.now ≡ dir_of words.now }
{
    let (front, back) = around_dashes(words);
    operand(front, back, 1).unwrap_or(".")
}

/// The words before a first `--`, and those behind it: none where there is no `--`.
fn around_dashes(words: &[String]) -> (&[String], &[String])
    ensures front { result.0.now ≡ before_first is_dashes words.now }
    ensures back { result.1.now ≡ after_first is_dashes words.now }
{
    match words.iter().position(|word| word.as_str() == "--") {
        Some(dashes) => (&words[..dashes], &words[dashes + 1..]),
        None => (words, &[]),
    }
}

/// The word at a place, counted from 0 over both parts, and `None` past the end.
fn operand<'a>(front: &'a [String], back: &'a [String], place: usize) -> Option<&'a str>
    ensures { option_copied result ≡ option_map string_bytes (slice_get (front.now ++ back.now) place) }
{
    match front.get(place) {
        Some(word) => Some(word),
        None => back.get(place - front.len()).map(String::as_str),
    }
}

/// Whether a word begins with `-`, and is not `-` alone.
fn is_option_word(word: &String) -> bool
    ensures { result ≡ is_option word.now }
{
    word.starts_with("-") && word.as_str() != "-"
}

/// The form of the words without a first `--`, of which those before it may be no options.
fn form_in<'a>(front: &'a [String], back: &'a [String]) -> Option<Request<'a>>
    ensures { option_map asked_as result ≡ form_in front.now back.now }
{
    if front.iter().any(is_option_word) {
        return None;
    }
    by_command(front, back)
}

/// The form of the words without a first `--`, by the first of them.
fn by_command<'a>(front: &'a [String], back: &'a [String]) -> Option<Request<'a>>
    ensures { option_map asked_as result ≡ operands_form (front.now ++ back.now) }
{
    match operand(front, back, 0)? {
        "do" => do_words(front, back),
        "run" => run_words(front, back),
        _ => labels(front, back),
    }
}

/// The form `do DIR WORD...`, wherever a `--` parts its words.
fn do_words<'a>(front: &'a [String], back: &'a [String]) -> Option<Request<'a>>
    ensures { option_map asked_as result ≡ do_form (front.now ++ back.now) }
{
    operand(front, back, 2)?;
    Some(Request::Line { front, back })
}

/// The form `run DIR`, wherever a `--` parts its words.
fn run_words<'a>(front: &'a [String], back: &'a [String]) -> Option<Request<'a>>
    ensures { option_map asked_as result ≡ run_form (front.now ++ back.now) }
{
    operand(front, back, 1)?;
    match operand(front, back, 2) {
        Some(_) => None,
        None => Some(Request::Input),
    }
}

/// The form `labels DIR HANDLE`, wherever a `--` parts its words.
fn labels<'a>(front: &'a [String], back: &'a [String]) -> Option<Request<'a>>
    ensures { option_map asked_as result ≡ labels_form (front.now ++ back.now) }
{
    let command = operand(front, back, 0)?;
    let handle = operand(front, back, 2)?;
    if command != "labels" || operand(front, back, 3).is_some() {
        return None;
    }
    let dimm = read_handle(handle)?;
    Some(Request::Labels { dimm })
}

/// A device handle: a number below 2^32.
fn read_handle(text: &str) -> Option<u32>
    ensures { result ≡ handle text.now }
{
    match read_number(text) {
        Some(number) if number <= u64::from(u32::MAX) => Some(number as u32),
        _ => None,
    }
}
