// What the bytes at a command's place show.
ghost use Rattle.std.specs.Prelude.{◌≡◌, ◌≤◌, ◌<◌, ◌+◌, ◌-◌, ℕ, IfOk, IfSome, eqb, length, drop, position, take};
ghost use Rattle.std.specs.Str.{is_utf8};
ghost use Rattle.mt_protocol.specs.Frames.{IsWithin, limited, limited_by, line_end, most_input, shown, shown_by_line, shown_by_order};
ghost use Rattle.mt_protocol.specs.Framing.{IsFramed};

use crate::commands::Command;
use crate::orders::{Order, order_of};
use mt_term::{Name, OutOfMemory};
use std::alloc::Global;

/// What the bytes at a command's place show.
#[derive(Drop)]
pub enum Shown {
    /// A whole command of so many bytes.
    Whole(Command, usize),
    /// No command.
    Bad,
    /// A command that is too long.
    Long,
    /// Nothing yet.
    More,
}

// The most bytes of a line, of a text and of the input.
const MOST_LINE: usize = 64;

const MOST_TEXT: usize = 1_048_576;

const MOST_INPUT: usize = 16_777_216;

/// What the bytes at a command's place show, where `used` bytes of the input stand before.
pub fn limited(alloc: Global, used: usize, bytes: &[u8]) -> Result<Shown, OutOfMemory>
    ensures is { IfOk result (λ s. s ≡ limited used bytes.now) }
    ensures within { IfOk result (λ s. IsWithin (length bytes.now) s) }
{
    let room = MOST_INPUT.saturating_sub(used);
    let seen = judged(alloc, front(bytes, room))?;
    Ok(limited_by(room, bytes, seen))
}

// The front of the bytes, at most so many.
fn front(bytes: &[u8], count: usize) -> &[u8]
    ensures is { result.now ≡ take count bytes.now }
    ensures short { length result.now ≤ length bytes.now }
    ensures few { length result.now ≤ count }
{
    if count < bytes.len() {
        &bytes[..count]
    } else {
        bytes
    }
}

fn limited_by(room: usize, bytes: &[u8], seen: Shown) -> Shown
    requires { IsWithin (length bytes.now) seen }
    ensures is { result ≡ limited_by room bytes.now seen }
    ensures within { IsWithin (length bytes.now) result }
{
    match seen {
        Shown::More if room <= bytes.len() && !bytes.is_empty() => Shown::Long,
        other => other,
    }
}

// What bytes show, where the input may go on without an end.
#[tactic(auto, unfolding(crate::specs::Frames::shown))]
fn judged(alloc: Global, bytes: &[u8]) -> Result<Shown, OutOfMemory>
    ensures is { IfOk result (λ s. s ≡ shown bytes.now) }
    ensures within { IfOk result (λ s. IsWithin (length bytes.now) s) }
{
    match line_end(bytes) {
        Some(at) => shown_by_order(alloc, at, &bytes[at + 1..], order_of(&bytes[..at])),
        None => {
            if bytes.len() > MOST_LINE {
                Ok(Shown::Bad)
            } else {
                Ok(Shown::More)
            }
        }
    }
}

fn line_end(bytes: &[u8]) -> Option<usize>
    ensures is { result ≡ line_end bytes.now }
    ensures within { IfSome result (λ n. n < length bytes.now) }
    ensures small { IfSome result (λ n. n ≤ 64) }
{
    end_in(front(bytes, MOST_LINE + 1))
}

fn end_in(bytes: &[u8]) -> Option<usize>
    ensures is { result ≡ position (λ b. eqb b 10) bytes.now }
    ensures within { IfSome result (λ n. n < length bytes.now) }
{
    bytes.iter().position(|byte| *byte == b'\n')
}

// By what a line of `at` bytes orders, and the bytes after its end.
fn shown_by_order(
    alloc: Global,
    at: usize,
    rest: &[u8],
    order: Option<Order>,
) -> Result<Shown, OutOfMemory>
    requires { at ≤ 64 }
    ensures is { IfOk result (λ s. s ≡ shown_by_order at rest.now order) }
    ensures within { IfOk result (λ s. IsWithin (at + 1 + length rest.now) s) }
{
    let Some(order) = order else {
        return Ok(Shown::Bad);
    };
    match order {
        Order::Text(len) => shown_text(alloc, len, at, rest),
        Order::Edit(start, del, len) => shown_edit(alloc, start, del, len, at, rest),
        Order::Advance(count) => Ok(Shown::Whole(Command::Advance(count), at + 1)),
        Order::Retract(count) => Ok(Shown::Whole(Command::Retract(count), at + 1)),
        Order::Goto(pos) => Ok(Shown::Whole(Command::Goto(pos), at + 1)),
        Order::Show => Ok(Shown::Whole(Command::Show, at + 1)),
        Order::Quit => Ok(Shown::Whole(Command::Quit, at + 1)),
    }
}

fn shown_text(alloc: Global, len: usize, at: usize, rest: &[u8]) -> Result<Shown, OutOfMemory>
    requires { at ≤ 64 }
    ensures is { IfOk result (λ s. s ≡ shown_by_order at rest.now (Some (Order.Text len))) }
    ensures within { IfOk result (λ s. IsWithin (at + 1 + length rest.now) s) }
{
    match text_after(len, rest) {
        Framed::Text(text) => {
            let text = Name::from_bytes(alloc, text)?;
            Ok(Shown::Whole(Command::Text(text), at + 1 + len + 1))
        }
        Framed::Bad => Ok(Shown::Bad),
        Framed::Long => Ok(Shown::Long),
        Framed::More => Ok(Shown::More),
    }
}

fn shown_edit(
    alloc: Global,
    start: usize,
    del: usize,
    len: usize,
    at: usize,
    rest: &[u8],
) -> Result<Shown, OutOfMemory>
    requires { at ≤ 64 }
    ensures is { IfOk result (λ s. s ≡ shown_by_order at rest.now (Some (Order.Edit start del len))) }
    ensures within { IfOk result (λ s. IsWithin (at + 1 + length rest.now) s) }
{
    match text_after(len, rest) {
        Framed::Text(text) => {
            let text = Name::from_bytes(alloc, text)?;
            Ok(Shown::Whole(Command::Edit(start, del, text), at + 1 + len + 1))
        }
        Framed::Bad => Ok(Shown::Bad),
        Framed::Long => Ok(Shown::Long),
        Framed::More => Ok(Shown::More),
    }
}

// The text that follows a line, where it and the byte after it are there.
enum Framed<'a> {
    Text(&'a [u8]),
    Bad,
    Long,
    More,
}

fn text_after(len: usize, rest: &[u8]) -> Framed<'_>
    ensures { IsFramed len rest.now result }
{
    if len > MOST_TEXT {
        return Framed::Long;
    }
    if rest.len() <= len {
        return Framed::More;
    }
    let text = &rest[..len];
    if rest[len] == b'\n' && is_utf8(text) {
        Framed::Text(text)
    } else {
        Framed::Bad
    }
}

fn is_utf8(bytes: &[u8]) -> bool
    ensures { result ≡ is_utf8 bytes.now }
{
    match str::from_utf8(bytes) {
        Ok(_) => true,
        Err(_) => false,
    }
}
