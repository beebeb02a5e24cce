// What a line orders.
ghost use Rattle.std.specs.Prelude.{◌≡◌};
ghost use Rattle.mt_protocol.specs.Frames.{after_word, alone, edit_of, first_word, order_of, with_rest, third_by, two_more, number, space_in};
ghost use Rattle.mt_term.specs.Seen.{seen};

use crate::numbers::number;

/// What a line orders. `Text` and `Edit` are followed by a text of so many bytes.
#[derive(Clone, Copy, Debug, PartialEq, Eq)]
pub enum Order {
    Text(usize),
    Advance(usize),
    Retract(usize),
    Goto(usize),
    Edit(usize, usize, usize),
    Show,
    Quit,
}

fn space_in(bytes: &[u8]) -> Option<usize>
    ensures { result ≡ space_in bytes.now }
{
    bytes.iter().position(|byte| *byte == b' ')
}

#[tactic(auto, unfolding(crate::specs::Frames::first_word))]
fn first_word(bytes: &[u8]) -> &[u8]
    ensures { result.now ≡ first_word bytes.now }
{
    match space_in(bytes) {
        Some(at) => &bytes[..at],
        None => bytes,
    }
}

#[tactic(auto, unfolding(crate::specs::Frames::after_word))]
fn after_word(bytes: &[u8]) -> Option<&[u8]>
    ensures { seen result ≡ after_word bytes.now }
{
    match space_in(bytes) {
        Some(at) => Some(&bytes[at + 1..]),
        None => None,
    }
}

/// What a line, without its end, orders.
#[tactic(auto, unfolding(crate::specs::Frames::order_of))]
pub fn order_of(line: &[u8]) -> Option<Order>
    ensures { result ≡ order_of line.now }
{
    let word = first_word(line);
    match after_word(line) {
        Some(rest) => with_rest(word, rest),
        None => alone(word),
    }
}

fn alone(word: &[u8]) -> Option<Order>
    ensures { result ≡ alone word.now }
{
    if word == b"show".as_slice() {
        Some(Order::Show)
    } else if word == b"quit".as_slice() {
        Some(Order::Quit)
    } else {
        None
    }
}

fn with_rest(word: &[u8], rest: &[u8]) -> Option<Order>
    ensures { result ≡ with_rest word.now rest.now }
{
    if word == b"text".as_slice() {
        number(rest).map(Order::Text)
    } else if word == b"advance".as_slice() {
        number(rest).map(Order::Advance)
    } else if word == b"retract".as_slice() {
        number(rest).map(Order::Retract)
    } else if word == b"goto".as_slice() {
        number(rest).map(Order::Goto)
    } else if word == b"edit".as_slice() {
        edit_of(rest)
    } else {
        None
    }
}

// Three numbers.
fn edit_of(rest: &[u8]) -> Option<Order>
    ensures { result ≡ edit_of rest.now }
{
    let start = first_word(rest);
    let after = after_word(rest)?;
    let del = first_word(after);
    let len = after_word(after)?;
    Some(Order::Edit(number(start)?, number(del)?, number(len)?))
}
