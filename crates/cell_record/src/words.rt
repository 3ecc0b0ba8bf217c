//! A line's content, and its words.

ghost use Rattle.std.specs.Prelude.{◌≡◌, ◌≤◌, length};
ghost use Rattle.std.specs.List.{prefix_len};
ghost use Rattle.cell_record.specs.Words.{is_blank, in_word, ends_with, dropped, word_of};
ghost use Rattle.cell_record.specs.Words.{content as content_of, trim_front, trim_back};
ghost use Rattle.cell_record.specs.Words.{trim as trimmed, argument_of, is_remark};
ghost use Rattle.cell_record.specs.Words.{begins_with_digit, is_digit};

fn is_blank(octet: u8) -> bool
    ensures { result ≡ is_blank octet }
{
    octet == b' ' || octet == b'\t'
}

pub fn is_digit(octet: u8) -> bool
    ensures { result ≡ is_digit octet }
{
    b'0' <= octet && octet <= b'9'
}

fn ends_with(octet: u8, line: &[u8]) -> bool
    ensures { result ≡ ends_with octet line.now }
{
    !line.is_empty() && line[line.len() - 1] == octet
}

/// The line without that octet, where it ends with it.
fn dropped(octet: u8, line: &[u8]) -> &[u8]
    ensures { result.now ≡ dropped octet line.now }
{
    if ends_with(octet, line) {
        &line[..line.len() - 1]
    } else {
        line
    }
}

/// The line without its line feed and without a carriage return before that.
pub fn content(line: &[u8]) -> &[u8]
    ensures { result.now ≡ content_of line.now }
{
    if ends_with(b'\n', line) {
        dropped(b'\r', &line[..line.len() - 1])
    } else {
        line
    }
}

/// The line without the spaces and tabs at both ends.
pub fn trim(line: &[u8]) -> &[u8]
    ensures { result.now ≡ trimmed line.now }
{
    trim_back(trim_front(line))
}

#[tactic(auto, using(crate::proofs::Trims::front_more, crate::proofs::Trims::front_stop))]
fn trim_front(line: &[u8]) -> &[u8]
    ensures { result.now ≡ trim_front line.now }
{
    let mut at = 0;
    while at < line.len() && is_blank(line[at]) {
        at += 1;
    }
    &line[at..]
}

#[tactic(auto, using(crate::proofs::Trims::back_more, crate::proofs::Trims::back_stop))]
fn trim_back(line: &[u8]) -> &[u8]
    ensures { result.now ≡ trim_back line.now }
{
    let mut end = line.len();
    while end > 0 && is_blank(line[end - 1]) {
        end -= 1;
    }
    &line[..end]
}

/// How many octets the first word has.
fn word_len(line: &[u8]) -> usize
    ensures count { result ≡ prefix_len in_word line.now }
    ensures within { result ≤ length line.now }
{
    let mut count = 0;
    while count < line.len() && !is_blank(line[count]) {
        count += 1;
    }
    count
}

/// A line's first word, and what stands after it and the blanks behind it.
#[derive(Clone, Copy)]
pub struct Parted<'a> {
    pub word: &'a [u8],
    pub argument: &'a [u8],
}

/// The first word and the rest.
pub fn first_word(line: &[u8]) -> Parted<'_>
    ensures word { result.word.now ≡ word_of line.now }
    ensures argument { result.argument.now ≡ argument_of line.now }
{
    let count = word_len(line);
    Parted {
        word: &line[..count],
        argument: trim_front(&line[count..]),
    }
}

/// Whether the line is empty or a comment.
pub fn is_remark(line: &[u8]) -> bool
    ensures { result ≡ is_remark line.now }
{
    match line.first() {
        Some(octet) => *octet == b'#',
        None => true,
    }
}

pub fn begins_with_digit(line: &[u8]) -> bool
    ensures { result ≡ begins_with_digit line.now }
{
    match line.first() {
        Some(octet) => is_digit(*octet),
        None => false,
    }
}
